//! What the lines in front of a line leave for it.

ghost use Rattle.std.specs.Prelude.{◌≡◌, ◌++◌, OnOk};
ghost use Rattle.uv_script.specs.Before.{at_start, is_dead};
ghost use Rattle.uv_script.specs.Kept.{before_in};
ghost use Rattle.uv_script.specs.Script.{dying};

use crate::Form;
use crate::names::Names;
use std::alloc::{AllocError, Global};
use uv_num::List;

/// What the lines in front of a line leave for it.
#[derive(Drop)]
pub(crate) struct Context<'a> {
    /// The line's number, from 1.
    pub(crate) number: u32,
    /// The names that are declared.
    pub(crate) names: Names<'a>,
    /// The clients that died.
    pub(crate) dead: List<u32>,
}

impl<'a> Context<'a> {
    /// What stands before the first line. It takes no memory.
    pub(crate) fn new(alloc: Global) -> Context<'a>
        ensures { before_in result ≡ at_start }
    {
        Context {
            number: 1,
            names: Names::new(alloc),
            dead: List::new(alloc),
        }
    }

    /// Whether an actor died, so that it has no more lines.
    pub(crate) fn is_dead(&self, actor: u32) -> bool
        ensures { result ≡ is_dead (before_in self.now) actor }
    {
        self.dead.as_slice().iter().any(|dead| actor == *dead)
    }
}

/// Puts the client that a form lets die with the others.
pub(crate) fn put_dying(dead: &mut List<u32>, form: &Form) -> Result<(), AllocError>
    ensures { OnOk result (dead.new ≡ dead.old ++ dying form.now) }
{
    match form {
        Form::Plain { .. } | Form::Minus { .. } | Form::Plus { .. } | Form::Data { .. } => Ok(()),
        Form::Die { client } => dead.push(*client),
    }
}
