//! A call in flight: what it has done so far and what it holds.

ghost use Rattle.std.specs.Prelude.{◌≡◌, [], ◌∷◌, ◌++◌, length, replicate, slice_get};
ghost use Rattle.uv_machine.specs.declared.entry.Word.TheVariants.{Reserve, Look, Make, Commit, Act, Lock, Check, Finish};
ghost use Rattle.uv_machine.specs.Plans.{entered, plan_of, plan_for, freeing, closing_word, closing, next_word, is_the_number, locks, looks_at, holds, is_call_on, own_object, looked_at, acted_on, look_ask, call_answer, next_place, moved_on, with_made, call_changed};

use crate::entry::{Answer, Word};
use uv_num::{Ask, Changes, Errno, Ids, NONE, Request, Role};

/// A call in flight of one actor.
#[derive(Clone, Copy, Debug, PartialEq)]
pub struct InFlight {
    pub file: u32,
    pub request: Request,
    /// How many steps of its plan it has made.
    pub place: u32,
    /// The refusal that it met, if any.
    pub refusal: Option<Errno>,
    /// The handle number that is set aside for it.
    pub reserved: Option<u32>,
    /// The objects that it looks at, in the order of its request's arguments; one may stand twice. It lets them go in
    /// that order.
    pub looked: Ids,
    /// The object that it holds exclusively.
    pub locked: Option<u32>,
    /// What its exit tells, unless a step was refused.
    pub outcome: Answer,
}

/// The most steps of a plan.
pub const PLAN_STEPS: u32 = 16;

const MADE: [Word; 2] = [Word::Make, Word::Commit];

const DESTROYED: [Word; 3] = [Word::Lock, Word::Check, Word::Finish];

const DONE: [Word; 1] = [Word::Act];

impl InFlight {
    /// A call that has just entered.
    pub fn entered(file: u32, request: Request) -> InFlight
        ensures { result ≡ entered file request }
    {
        InFlight {
            file,
            request,
            place: 0,
            refusal: None,
            reserved: None,
            looked: Ids::Empty,
            locked: None,
            outcome: Answer::Ok,
        }
    }

    /// The word of the call's next step.
    pub fn next_word(&self) -> Word
        ensures { result ≡ next_word self.now }
    {
        match self.refusal {
            None => self.planned_word().unwrap_or(self.closing()),
            Some(_) => self.closing(),
        }
    }

    fn planned_word(&self) -> Option<Word>
        ensures { result ≡ slice_get (plan_for self.now.request) self.now.place }
    {
        planned(
            self.request.role(),
            self.request.looks().len(),
            self.place as usize,
        )
    }

    fn closing(&self) -> Word
        ensures { result ≡ closing self.now }
    {
        closing_word(self.reserved, self.looked)
    }

    /// What the call looks at next, if anything.
    pub fn look_ask(&self) -> Option<Ask>
        ensures { result ≡ look_ask self.now }
    {
        self.request.looks().get(self.looked.len())
    }

    /// The object at a place of those that the call looks at, or `NONE`.
    pub fn looked_at(&self, place: usize) -> u32
        ensures { result ≡ looked_at place self.now }
    {
        self.looked.get(place).unwrap_or(NONE)
    }

    /// The object that an act is about and that a free gives back, or `NONE`.
    pub fn acted_on(&self) -> u32
        ensures { result ≡ acted_on self.now }
    {
        self.looked_at(0)
    }

    /// The object that the call holds exclusively, or `NONE`.
    pub fn own_object(&self) -> u32
        ensures { result ≡ own_object self.now }
    {
        self.locked.unwrap_or(NONE)
    }

    /// What the call's exit tells.
    pub fn answer(&self) -> Answer
        ensures { result ≡ call_answer self.now }
    {
        match self.refusal {
            None => self.outcome,
            Some(errno) => Answer::Refused(errno),
        }
    }
}

/// The word at a place of a plan, for a role that looks at so many objects.
fn planned(role: Role, looks: usize, place: usize) -> Option<Word>
    ensures { result ≡ slice_get (plan_of role looks) place }
{
    match role {
        Role::Creates(_) => create_word(looks, place),
        Role::Destroys(_) => destroy_word(place),
        Role::Acts(_) => act_word(looks, place),
    }
}

fn create_word(looks: usize, place: usize) -> Option<Word>
    ensures { result ≡ slice_get (Reserve ∷ (replicate looks Look ++ Make ∷ Commit ∷ [])) place }
{
    if place == 0 {
        return Some(Word::Reserve);
    }
    made_word(looks, place - 1)
}

fn made_word(looks: usize, place: usize) -> Option<Word>
    ensures { result ≡ slice_get (replicate looks Look ++ Make ∷ Commit ∷ []) place }
{
    if place < looks {
        return Some(Word::Look);
    }
    MADE.get(place - looks).copied()
}

fn destroy_word(place: usize) -> Option<Word>
    ensures { result ≡ slice_get (Lock ∷ Check ∷ Finish ∷ []) place }
{
    DESTROYED.get(place).copied()
}

fn act_word(looks: usize, place: usize) -> Option<Word>
    ensures { result ≡ slice_get (replicate looks Look ++ Act ∷ []) place }
{
    if place < looks {
        return Some(Word::Look);
    }
    DONE.get(place - looks).copied()
}

fn freeing(looked: Ids) -> Word
    ensures { result ≡ freeing looked }
{
    match looked {
        Ids::Empty => Word::Exit,
        Ids::One(..) | Ids::Two(..) | Ids::Three(..) | Ids::Four(..) => Word::Free,
    }
}

fn closing_word(reserved: Option<u32>, looked: Ids) -> Word
    ensures { result ≡ closing_word reserved looked }
{
    match reserved {
        None => freeing(looked),
        Some(_) => Word::Abort,
    }
}

fn is_number(number: Option<u32>, n: u32) -> bool
    ensures { result ≡ is_the_number n number }
{
    match number {
        None => false,
        Some(k) => k == n,
    }
}

/// What a step makes of its call. A step that goes on by its plan counts its place.
#[derive(Clone, Copy, Debug)]
pub(crate) enum CallChange {
    /// Its step goes on.
    MovesOn,
    /// Its step is refused.
    Refused(Errno),
    /// A number is set aside for it, if one is free.
    Reserves(Option<u32>),
    /// It looks at an object more.
    Looks(u32),
    /// The number and the lock are now the new object's, and this is what the call is to tell.
    Makes(u32, Answer),
    /// Its act came to this.
    Notes(Answer),
    /// It holds an object exclusively.
    Locks(u32),
    /// It holds none so any more.
    Unlocks,
    /// Its number goes back.
    GivesBack,
    /// What it looked at first is let go.
    LetsGo,
}

impl InFlight {
    fn move_on(&mut self)
        ensures { self.new ≡ moved_on self.old }
    {
        self.place = next_place(self.place);
    }

    fn take_made(&mut self, id: u32, outcome: Answer)
        ensures { self.new ≡ with_made id outcome self.old }
    {
        self.move_on();
        self.reserved = None;
        self.locked = Some(id);
        self.outcome = outcome;
    }

    pub(crate) fn change(&mut self, change: CallChange)
        ensures { self.new ≡ call_changed change self.old }
    {
        match change {
            CallChange::MovesOn => self.move_on(),
            CallChange::Refused(errno) => self.refusal = Some(errno),
            CallChange::Reserves(number) => {
                self.move_on();
                self.reserved = number;
            }
            CallChange::Looks(id) => {
                self.move_on();
                self.looked = self.looked.and(id);
            }
            CallChange::Makes(id, outcome) => self.take_made(id, outcome),
            CallChange::Notes(outcome) => {
                self.move_on();
                self.outcome = outcome;
            }
            CallChange::Locks(id) => {
                self.move_on();
                self.locked = Some(id);
            }
            CallChange::Unlocks => {
                self.move_on();
                self.locked = None;
            }
            CallChange::GivesBack => self.reserved = None,
            CallChange::LetsGo => self.looked = self.looked.behind(),
        }
    }
}

/// A call in the table changes where it stands there.
impl Changes<Option<InFlight>> for CallChange {
    ghost use Rattle.std.specs.Prelude.{option_map};
    ghost use Rattle.uv_machine.specs.Plans.{call_changed};

    ghost changed = { λ change. option_map (call_changed change) };

    fn change(self, slot: &mut Option<InFlight>) {
        if let Some(call) = slot {
            call.change(self);
        }
    }
}

fn next_place(place: u32) -> u32
    ensures { result ≡ next_place place }
{
    if place < PLAN_STEPS { place + 1 } else { place }
}

/// Whether the call in a place of the table holds this object exclusively.
pub fn locks(slot: Option<InFlight>, id: u32) -> bool
    ensures { result ≡ locks id slot }
{
    match slot {
        None => false,
        Some(call) => is_number(call.locked, id),
    }
}

fn looks_at(call: InFlight, id: u32) -> bool
    ensures { result ≡ looks_at id call }
{
    call.looked.contains(id)
}

/// Whether the call in a place of the table holds this object, exclusively or not.
pub fn holds(slot: Option<InFlight>, id: u32) -> bool
    ensures { result ≡ holds id slot }
{
    match slot {
        None => false,
        Some(call) => is_number(call.locked, id) || looks_at(call, id),
    }
}

/// Whether the call in a place of the table is on this file.
pub fn is_call_on(slot: Option<InFlight>, file: u32) -> bool
    ensures { result ≡ is_call_on file slot }
{
    match slot {
        None => false,
        Some(call) => call.file == file,
    }
}
