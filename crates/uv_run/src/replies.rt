//! The replies so far, and the handles and cells that they tell.

ghost use Rattle.std.specs.Prelude.{◌≡◌, ◌++◌, [], ◌∷◌, OnOk, OnErr};
ghost use Rattle.uv_run.specs.Stand.{cell_given, given};

use crate::reply::Reply;
use crate::sayings::{cell_answered, handle_told};
use std::alloc::{AllocError, Global};
use std::collections::BTreeMap;
use std::marker::Model;
use uv_machine::Answer;
use uv_num::{List, NONE};

/// The replies so far, which contracts see as their list, in the order in which they came.
///
/// Beside the list stands the answer that the last reply to each line tells, so that what the lines that declare names were
/// given is found without a walk over the replies.
#[derive(Drop)]
pub struct Replies {
    list: List<Reply>,
    answers: BTreeMap<u32, Answer>,
}

impl Model for Replies {
    ghost use Rattle.std.specs.Prelude.{List};
    ghost use Rattle.uv_run.specs.declared.reply.Reply.{Reply};
    ghost use Rattle.uv_run.specs.Handles.{AreKept};

    ghost Value = { List Reply };

    ghost view = { λ r. r.list };

    ghost invariant = { λ r. AreKept r.answers r.list };
}

impl Replies {
    /// No replies. It takes no memory.
    pub fn new(alloc: Global) -> Replies
        ensures { result ≡ [] }
    {
        Replies {
            list: List::new(alloc),
            answers: BTreeMap::new(alloc),
        }
    }

    /// Puts a reply after the others. On an error nothing changes.
    pub fn put(&mut self, reply: Reply) -> Result<(), AllocError>
        ensures ok { OnOk result (self.new ≡ self.old ++ reply ∷ []) }
        ensures err { OnErr result (self.new ≡ self.old) }
    {
        self.list.push(reply)?;
        if self.answers.insert(reply.line, reply.answer).is_err() {
            // List and answers are put together, or neither is.
            let _ = self.list.pop();
            return Err(AllocError);
        }
        Ok(())
    }

    /// The handle that the create on this line was given. `NONE` where it was refused or hasn't ended.
    pub fn given(&self, line: u32) -> u32
        ensures { result ≡ given self.now line }
    {
        match self.answers.get(&line) {
            None => NONE,
            Some(answer) => handle_told(*answer),
        }
    }

    /// The cell that the create on this line was given, by its index and its generation. None where it was refused or hasn't
    /// ended.
    pub fn cell_given(&self, line: u32) -> Option<(u32, u32)>
        ensures { result ≡ cell_given self.now line }
    {
        match self.answers.get(&line) {
            None => None,
            Some(answer) => cell_answered(*answer),
        }
    }
}
