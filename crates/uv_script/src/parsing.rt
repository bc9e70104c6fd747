//! Bytes as a script.

ghost use Rattle.std.specs.Prelude.{◌≡◌, ◌≤◌, ◌++◌, OnOk};
ghost use Rattle.uv_num.specs.declared.limits.TheConstants.{SCRIPT_LINES};
ghost use Rattle.uv_script.specs.Kept.{before_in, seen};
ghost use Rattle.uv_script.specs.Script.{script_of, ParsedAs, is_outside, lines_at, after_line};

use crate::context::{Context, put_dying};
use crate::reading::{Read, read_line};
use crate::splits::first_line;
use crate::{Line, Mode, Script, ScriptFault};
use std::alloc::{AllocError, Global};
use uv_num::{List, SCRIPT_LINES};

/// Reads a script. Its lines end with a line feed, which the last may lack; one carriage return in front of
/// a line feed is taken away. Words are parted by blanks and tabs. A line without words, or whose first byte
/// is `#`, does nothing and has its number. There are at most `SCRIPT_LINES` lines. The language is this
/// project's own.
pub fn parse(alloc: Global, bytes: &[u8], mode: Mode) -> Result<Script, ScriptFault>
    ensures { ParsedAs (script_of mode bytes.now) result }
{
    match mode {
        Mode::Steps => {}
    }
    let mut lines = List::new(alloc);
    let mut context = Context::new(alloc);
    let mut rest = bytes;
    while !rest.is_empty() {
        let (line, more) = first_line(rest);
        let Ok(read) = read_line(alloc, &context, line) else {
            return Err(ScriptFault::NoMemory);
        };
        if is_outside(&read) {
            return Err(ScriptFault::At(context.number));
        }
        if put_read(&mut lines, &mut context, read).is_err() {
            return Err(ScriptFault::NoMemory);
        }
        rest = more;
    }
    Ok(Script::of(lines))
}

fn is_outside(read: &Read<'_>) -> bool
    ensures { result ≡ is_outside (seen read.now) }
{
    match read {
        Read::Outside => true,
        Read::Nothing | Read::Says(_, _) => false,
    }
}

/// Puts what a line says with the other lines, and goes on to the next line.
pub(crate) fn put_read<'a>(
    lines: &mut List<Line>,
    context: &mut Context<'a>,
    read: Read<'a>,
) -> Result<(), AllocError>
    requires { context.old.number ≤ SCRIPT_LINES }
    ensures lines { OnOk result (lines.new ≡ lines.old ++ lines_at context.old.number (seen read.entry)) }
    ensures context { OnOk result (before_in context.new ≡ after_line (before_in context.old) (seen read.entry)) }
{
    match read {
        Read::Outside => Ok(()),
        Read::Nothing => {
            context.number += 1;
            Ok(())
        }
        Read::Says(form, naming) => {
            let number = context.number;
            context.number = number + 1;
            context.names.declare(number, naming)?;
            put_dying(&mut context.dead, &form)?;
            lines.push(Line { number, form })
        }
    }
}
