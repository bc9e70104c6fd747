//! The texts of events and replies.

ghost use Rattle.std.specs.Prelude.{◌≡◌};
ghost use Rattle.uv_num.specs.declared.kind.Kind.TheVariants as kind;
ghost use Rattle.uv_run.specs.Stand.{cell_answered, ended_reply, event_line, event_text, gone_text, handle_told, key_told, made_text, pair_number, reply_by, reply_text, saying_for, tearer_of, full_text};
ghost use Rattle.uv_run.specs.Turns.{awaited};

use crate::heard::{Ended, Event};
use crate::reply::{Reply, Telling};
use uv_machine::Answer;
use uv_num::{CELLS, DRIVER, FIRST_QP_NUMBER, Kind, NONE};
use uv_pool::key_of;
use uv_report::{Saying, Tearer};

/// The number of the queue pair in a cell.
fn pair_number(index: u32) -> u32
    ensures { result ≡ pair_number index }
{
    if (index as usize) < CELLS {
        FIRST_QP_NUMBER + index
    } else {
        NONE
    }
}

fn region_key(index: u32, generation: u32) -> u32
    ensures { result ≡ key_told kind.Mr index generation }
{
    if (index as usize) < CELLS {
        key_of(Kind::Mr, index, generation)
    } else {
        NONE
    }
}

fn window_key(index: u32, generation: u32) -> u32
    ensures { result ≡ key_told kind.Mw index generation }
{
    if (index as usize) < CELLS {
        key_of(Kind::Mw, index, generation)
    } else {
        NONE
    }
}

/// What a reply tells of a new object.
fn made_text(made: Option<Kind>, handle: u32, index: u32, generation: u32) -> Saying
    ensures { result ≡ made_text made handle index generation }
{
    match made {
        None => Saying::Handle(handle),
        Some(kind) => match kind {
            Kind::Pd | Kind::Channel | Kind::Cq | Kind::Srq | Kind::Ah => Saying::Handle(handle),
            Kind::Qp => Saying::Pair {
                handle,
                number: pair_number(index),
            },
            Kind::Mr => Saying::Key {
                handle,
                key: region_key(index, generation),
            },
            Kind::Mw => Saying::Key {
                handle,
                key: window_key(index, generation),
            },
        },
    }
}

/// What a reply tells of an answer.
pub fn saying_for(made: Option<Kind>, answer: Answer) -> Saying
    ensures { result ≡ saying_for made answer }
{
    match answer {
        Answer::Made {
            handle,
            index,
            generation,
        } => made_text(made, handle, index, generation),
        Answer::State { state, index } => Saying::State {
            state,
            number: pair_number(index),
        },
        Answer::Event => Saying::DeviceFatal,
        Answer::Ok | Answer::Kept(_) => Saying::Ok,
        Answer::Refused(errno) => Saying::Refused(errno),
    }
}

/// The handle that an answer tells, or `NONE`.
pub fn handle_told(answer: Answer) -> u32
    ensures { result ≡ handle_told answer }
{
    match answer {
        Answer::Made { handle, .. } => handle,
        Answer::Ok | Answer::State { .. } | Answer::Event | Answer::Kept(_) | Answer::Refused(_) =>
            NONE,
    }
}

/// The cell that an answer tells, by its index and its generation.
pub fn cell_answered(answer: Answer) -> Option<(u32, u32)>
    ensures { result ≡ cell_answered answer }
{
    match answer {
        Answer::Made {
            index,
            generation,
            ..
        } => Some((index, generation)),
        Answer::Refused(_) | Answer::Ok | Answer::State { .. } | Answer::Event | Answer::Kept(_) =>
            None,
    }
}

fn tearer_of(actor: u32) -> Tearer
    ensures { result ≡ tearer_of actor }
{
    if actor == DRIVER {
        Tearer::Driver
    } else {
        Tearer::Client(actor)
    }
}

/// The text of an event, if it has one.
fn full_text(event: Event) -> Option<Saying>
    ensures { result ≡ full_text event }
{
    match event {
        Event::Silent => None,
        Event::Began => Some(Saying::Began),
        Event::Stepped { word, refusal } => Some(Saying::Step { word, refusal }),
        Event::Torn(file) => Some(Saying::Tear(file)),
        Event::Killed(x) => Some(Saying::Kill(x)),
        Event::Went(x) => Some(Saying::Gone(x)),
        Event::Dissociates(file) => Some(Saying::Dissociated(file)),
        Event::Closes(file) => Some(Saying::Closed(file)),
        Event::NotYet { calls, .. } => Some(Saying::NotYet(calls)),
        Event::TornBy { by, .. } => Some(Saying::TornBy(tearer_of(by))),
    }
}

/// What a run to the end tells of an event.
fn gone_text(event: Event) -> Option<Saying>
    ensures { result ≡ gone_text event }
{
    match event {
        Event::Went(x) => Some(Saying::Gone(x)),
        Event::Silent
        | Event::Began
        | Event::Stepped { .. }
        | Event::Torn(_)
        | Event::Killed(_)
        | Event::Dissociates(_)
        | Event::Closes(_)
        | Event::NotYet { .. }
        | Event::TornBy { .. } => None,
    }
}

/// What is told of an event.
pub fn event_text(telling: Telling, event: Event) -> Option<Saying>
    ensures { result ≡ event_text telling event }
{
    match telling {
        Telling::Plus { .. } => full_text(event),
        Telling::ToEnd | Telling::Dying => gone_text(event),
        Telling::Ending => None,
    }
}

/// The line under which an event is told of what the other line began.
pub fn event_line(telling: Telling, begun: u32) -> u32
    ensures { result ≡ event_line telling begun }
{
    match telling {
        Telling::Plus { line } => line,
        Telling::ToEnd | Telling::Dying | Telling::Ending => begun,
    }
}

fn ended_reply(line: u32, actor: u32, ended: Option<Ended>) -> Option<Reply>
    ensures { result ≡ ended_reply line actor ended }
{
    match ended {
        None => None,
        Some(ended) => Some(Reply {
            line,
            actor,
            made: ended.made,
            answer: ended.answer,
        }),
    }
}

/// The reply to what a line began, if it has ended. The single closes of a death and of the end have none.
pub fn reply_by(telling: Telling, line: u32, actor: u32, ended: Option<Ended>) -> Option<Reply>
    ensures { result ≡ reply_by telling line actor ended }
{
    match telling {
        Telling::Plus { .. } | Telling::ToEnd => ended_reply(line, actor, ended),
        Telling::Dying | Telling::Ending => None,
    }
}

/// The text of a reply, if there is one.
pub fn reply_text(reply: Option<Reply>) -> Option<Saying>
    ensures { result ≡ reply_text reply }
{
    match reply {
        None => None,
        Some(reply) => Some(saying_for(reply.made, reply.answer)),
    }
}

/// The file on which an event had to wait.
pub fn awaited(event: Event) -> Option<u32>
    ensures { result ≡ awaited event }
{
    match event {
        Event::NotYet { file, .. } | Event::TornBy { file, .. } => Some(file),
        Event::Silent
        | Event::Began
        | Event::Stepped { .. }
        | Event::Torn(_)
        | Event::Killed(_)
        | Event::Went(_)
        | Event::Dissociates(_)
        | Event::Closes(_) => None,
    }
}
