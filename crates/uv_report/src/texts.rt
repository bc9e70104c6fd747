//! The text of what a line of a report tells.

ghost use Rattle.std.specs.Prelude.{◌≡◌, Some};
ghost use Rattle.uv_report.specs.Report.{state_name, step_name};

use crate::{Saying, Tearer};
use std::fmt;
use uv_machine::Word;
use uv_model::Left;
use uv_num::{Errno, QpState};
use uv_wr::{Completion, Status, What};

/// The word of a step, as reports print it.
fn step_name(word: Word) -> &'static str
    ensures { result.now ≡ step_name word }
{
    match word {
        Word::Reserve => "reserve",
        Word::Look => "look",
        Word::Make => "make",
        Word::Commit => "commit",
        Word::Act => "act",
        Word::Lock => "lock",
        Word::Check => "check",
        Word::Finish => "finish",
        Word::Abort => "abort",
        Word::Free => "free",
        Word::Exit => "exit",
    }
}

/// The name of a queue pair's state, as `enum ib_qp_state` has it (`rdma/ib_verbs.h`) without its front `IB_QPS_`.
fn state_name(state: QpState) -> &'static str
    ensures { result.now ≡ state_name state }
{
    match state {
        QpState::Reset => "RESET",
        QpState::Init => "INIT",
        QpState::Rtr => "RTR",
        QpState::Rts => "RTS",
        QpState::Err => "ERR",
    }
}

impl fmt::Display for Tearer {
    ghost use Rattle.uv_report.specs.Report.{tearer_text};

    ghost output = { λ tearer. Some (tearer_text tearer) };

    fn fmt<W: fmt::Write>(&self, f: &mut fmt::Formatter<W>) -> fmt::Result {
        match *self {
            Tearer::Client(client) => write!(f, "c{client}"),
            Tearer::Driver => f.write_str("drv"),
        }
    }
}

/// A key or an immediate, in eight small hexadecimal digits.
#[derive(Drop)]
struct Key(u32);

impl fmt::Display for Key {
    ghost use Rattle.uv_report.specs.Report.{key_text};

    ghost output = { λ key. Some (key_text key.0) };

    #[tactic(auto, using(crate::proofs::Keys::padded_eight))]
    fn fmt<W: fmt::Write>(&self, f: &mut fmt::Formatter<W>) -> fmt::Result {
        write!(f, "0x{:08x}", self.0)
    }
}

/// An object, by its file, its kind and its handle.
#[derive(Drop)]
pub struct Named(pub Left);

impl fmt::Display for Named {
    ghost use Rattle.uv_report.specs.Report.{object_text};

    ghost output = { λ named. Some (object_text named.0) };

    fn fmt<W: fmt::Write>(&self, f: &mut fmt::Formatter<W>) -> fmt::Result {
        write!(
            f,
            "f{} {} {}",
            self.0.file,
            self.0.kind.name(),
            self.0.handle
        )
    }
}

/// What stands behind a step: nothing, or its errno.
#[derive(Drop)]
struct Refusal(Option<Errno>);

impl fmt::Display for Refusal {
    ghost use Rattle.uv_report.specs.Report.{refusal_text};

    ghost output = { λ refusal. Some (refusal_text refusal.0) };

    fn fmt<W: fmt::Write>(&self, f: &mut fmt::Formatter<W>) -> fmt::Result {
        match self.0 {
            Some(errno) => write!(f, " {}", errno.name()),
            None => Ok(()),
        }
    }
}

/// What stands after a poll's answer: nothing, or that its completion queue has overrun.
#[derive(Drop)]
struct Overrun(bool);

impl fmt::Display for Overrun {
    ghost use Rattle.uv_report.specs.Report.{overrun_text};

    ghost output = { λ overrun. Some (overrun_text overrun.0) };

    fn fmt<W: fmt::Write>(&self, f: &mut fmt::Formatter<W>) -> fmt::Result {
        if self.0 {
            f.write_str(" overrun")
        } else {
            Ok(())
        }
    }
}

/// What stands after a completion: nothing, or its immediate.
#[derive(Drop)]
struct Immediate(Option<u32>);

impl fmt::Display for Immediate {
    ghost use Rattle.uv_report.specs.Report.{immediate_text};

    ghost output = { λ immediate. Some (immediate_text immediate.0) };

    fn fmt<W: fmt::Write>(&self, f: &mut fmt::Formatter<W>) -> fmt::Result {
        match self.0 {
            Some(imm) => write!(f, " imm {}", Key(imm)),
            None => Ok(()),
        }
    }
}

/// How a work ended.
#[derive(Drop)]
struct Ending(Status);

impl fmt::Display for Ending {
    ghost use Rattle.uv_wr.specs.Statuses.{status_name};

    ghost output = { λ ending. Some (status_name ending.0) };

    fn fmt<W: fmt::Write>(&self, f: &mut fmt::Formatter<W>) -> fmt::Result {
        f.write_str(self.0.name())
    }
}

/// What was completed.
#[derive(Drop)]
struct Sort(What);

impl fmt::Display for Sort {
    ghost use Rattle.uv_wr.specs.Statuses.{what_name};

    ghost output = { λ sort. Some (what_name sort.0) };

    fn fmt<W: fmt::Write>(&self, f: &mut fmt::Formatter<W>) -> fmt::Result {
        f.write_str(self.0.name())
    }
}

/// A work that was completed: its number, how it ended and what it was.
#[derive(Drop)]
struct Work(Completion);

impl fmt::Display for Work {
    ghost use Rattle.uv_report.specs.Report.{work_text};

    ghost output = { λ work. Some (work_text work.0) };

    fn fmt<W: fmt::Write>(&self, f: &mut fmt::Formatter<W>) -> fmt::Result {
        write!(
            f,
            "{} {} {}",
            self.0.id,
            Ending(self.0.status),
            Sort(self.0.what)
        )
    }
}

/// A completion: its work, its length, and the number of its queue pair.
#[derive(Drop)]
struct Told(Completion);

impl fmt::Display for Told {
    ghost use Rattle.uv_report.specs.Report.{completion_text};

    ghost output = { λ told. Some (completion_text told.0) };

    fn fmt<W: fmt::Write>(&self, f: &mut fmt::Formatter<W>) -> fmt::Result {
        write!(
            f,
            "wc {} {} qpn {}{}",
            Work(self.0),
            self.0.length,
            self.0.qpn,
            Immediate(self.0.imm)
        )
    }
}

impl fmt::Display for Saying {
    ghost use Rattle.uv_report.specs.Report.{saying_text};

    ghost output = { λ saying. Some (saying_text saying) };

    fn fmt<W: fmt::Write>(&self, f: &mut fmt::Formatter<W>) -> fmt::Result {
        match *self {
            Saying::Ok => f.write_str("ok"),
            Saying::Handle(handle) => write!(f, "ok {handle}"),
            Saying::Pair { handle, number } => write!(f, "ok {handle} qpn {number}"),
            Saying::Key { handle, key } => write!(f, "ok {handle} key {}", Key(key)),
            Saying::State { state, number } => write!(f, "ok {} qpn {number}", state_name(state)),
            Saying::DeviceFatal => f.write_str("ok DEVICE_FATAL"),
            Saying::Refused(errno) => f.write_str(errno.name()),
            Saying::Began => f.write_str("began"),
            Saying::Step { word, refusal } => write!(f, "{}{}", step_name(word), Refusal(refusal)),
            Saying::Tear(file) => write!(f, "tear f{file}"),
            Saying::Kill(x) => write!(f, "kill {}", Named(x)),
            Saying::Gone(x) => write!(f, "gone {}", Named(x)),
            Saying::Dissociated(file) => write!(f, "dissociated f{file}"),
            Saying::Closed(file) => write!(f, "closed f{file}"),
            Saying::NotYet(calls) => write!(f, "notyet {calls}"),
            Saying::TornBy(tearer) => write!(f, "notyet {tearer}"),
            Saying::Idle => f.write_str("none"),
            Saying::Polled { taken, overrun } => write!(f, "ok {taken}{}", Overrun(overrun)),
            Saying::Empty { overrun } => write!(f, "empty{}", Overrun(overrun)),
            Saying::Completed(completion) => write!(f, "{}", Told(completion)),
            Saying::EventOf(cq) => write!(f, "ok cq {cq}"),
            Saying::Dead => f.write_str("dead"),
        }
    }
}

#[cfg(test)]
mod tests;
