//! The machine's state with its stored history. Each entry is made here, and the state beside the history is its replay.

ghost use Rattle.std.specs.Prelude.{◌≡◌, ◌≤◌, ◌+◌, ◌++◌, [], ◌∷◌, length, IfOk, OnOk, OnErr};
ghost use Rattle.uv_machine.specs.Histories.{Allowed, IsLegal, state_of};
ghost use Rattle.uv_machine.specs.Accounts.{costs};

use crate::entry::Entry;
use crate::state::State;
use std::alloc::{AllocError, Global};
use std::marker::Model;
use uv_num::{DEVICES, List, Stock};

/// The machine's state beside the history that led to it, with room for all that it owes.
#[derive(Drop)]
pub struct Log {
    state: State,
    history: Stock<Entry>,
}

impl Model for Log {
    ghost use Rattle.std.specs.Prelude.{◌-◌};
    ghost use Rattle.uv_machine.specs.Accounts.{owed};
    ghost use Rattle.uv_machine.specs.Logged.{Logged, IsLogged};

    ghost Value = { Logged };

    ghost view = { λ m. record { history = m.history.items; spare = m.history.room - owed m.state } };

    ghost invariant = { λ m. IsLogged m.state m.history.items m.history.room };
}

impl Log {
    /// The log in which nothing has happened. It has room for the devices to be pulled.
    pub fn new(alloc: Global) -> Result<Log, AllocError>
        ensures history { IfOk result (λ m. m.history ≡ []) }
    {
        let state = State::new(alloc)?;
        let mut history = Stock::new(alloc);
        history.widen(DEVICES)?;
        Ok(Log { state, history })
    }

    /// Takes room for so many more entries. On an error nothing changes.
    pub fn widen(&mut self, more: usize) -> Result<(), AllocError>
        ensures history { self.new.history ≡ self.old.history }
        ensures ok { OnOk result (self.new.spare ≡ self.old.spare + more) }
        ensures err { OnErr result (self.new.spare ≡ self.old.spare) }
    {
        self.history.widen(more)
    }

    /// Makes an entry that the machine allows now and that there is room for. It takes no memory.
    pub fn note(&mut self, entry: Entry)
        requires allowed { Allowed (state_of self.old.history) entry }
        requires room { costs entry ≤ self.old.spare }
        ensures history { self.new.history ≡ self.old.history ++ entry ∷ [] }
        ensures legal { IsLegal self.new.history }
        ensures spare { self.old.spare ≤ self.new.spare + costs entry }
    {
        self.state.apply(entry);
        self.history.put(entry);
    }

    /// The state after the history.
    pub fn state(&self) -> &State
        ensures { result.now ≡ state_of self.now.history }
    {
        &self.state
    }

    /// How many entries the history has.
    pub fn len(&self) -> usize
        ensures { result ≡ length self.now.history }
    {
        self.history.len()
    }

    /// The history, which is legal.
    pub fn into_history(self) -> List<Entry>
        ensures history { result ≡ self.history }
        ensures legal { IsLegal self.history }
    {
        let Log { state, history } = self;
        let _ = state;
        List::from_vec(history.into_vec())
    }
}
