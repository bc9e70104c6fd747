//! A whole report.

ghost use Rattle.std.specs.Prelude.{◌≡◌, ◌++◌, flat_map, string_bytes, IfOk, OnOk};
ghost use Rattle.uv_report.specs.Report.{report_of, said_line, left_line, gone_line};

use crate::texts::Named;
use crate::{Record, Said};
use std::alloc::{AllocError, Global};
use uv_model::{Left, gone_at_end};
use uv_num::Bytes;
use uv_script::Script;

/// The report of what a run stored and told: its texts behind the numbers of their lines, then how many objects were
/// left, then those that went when the files were closed. The report is this project's own.
///
/// The script is the one that the record follows. No text of today needs anything of it: a text has the number of its
/// line in the record, and the objects that went behind the last line are told by the history, which is made again for
/// that. The text is one buffer that grows by doubling, so time and memory grow with the lengths of the report and of the
/// history. Its only error is want of memory.
pub fn write(alloc: Global, _script: &Script, told: &Record) -> Result<Bytes, AllocError>
    ensures { IfOk result (λ b. b.bytes ≡ report_of told.now) }
{
    let gone = gone_at_end(alloc, &told.history)?;
    let mut text = String::new(alloc);
    put_replies(&mut text, told.replies.as_slice())?;
    put_left(&mut text, told.left.len())?;
    put_gone(&mut text, gone.as_slice())?;
    Ok(Bytes::from_vec(text.into_bytes()))
}

fn put_replies(text: &mut String, replies: &[Said]) -> Result<(), AllocError>
    ensures { OnOk result (string_bytes text.new ≡ string_bytes text.old ++ flat_map said_line replies.now) }
{
    for said in replies {
        put_said(text, said)?;
    }
    Ok(())
}

fn put_said(text: &mut String, said: &Said) -> Result<(), AllocError>
    ensures { OnOk result (string_bytes text.new ≡ string_bytes text.old ++ said_line said.now) }
{
    write!(text, "{} {}\n", said.line, said.text)
}

fn put_left(text: &mut String, left: usize) -> Result<(), AllocError>
    ensures { OnOk result (string_bytes text.new ≡ string_bytes text.old ++ left_line left) }
{
    write!(text, "left {left}\n")
}

fn put_gone(text: &mut String, gone: &[Left]) -> Result<(), AllocError>
    ensures { OnOk result (string_bytes text.new ≡ string_bytes text.old ++ flat_map gone_line gone.now) }
{
    for x in gone {
        put_object(text, *x)?;
    }
    Ok(())
}

fn put_object(text: &mut String, x: Left) -> Result<(), AllocError>
    ensures { OnOk result (string_bytes text.new ≡ string_bytes text.old ++ gone_line x) }
{
    write!(text, "end gone {}\n", Named(x))
}

#[cfg(test)]
mod tests;
