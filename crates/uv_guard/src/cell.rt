//! One cell: a table of two words and a slot.

ghost use Rattle.std.specs.Prelude.{◌≡◌, ◌≢◌, ℕ, ◌+◌, ◌<◌, ◌≤◌, true, [], ◌∷◌, ◌++◌, Some, None, IfOk, cond, nat_eq};
ghost use Rattle.uv_guard.specs.declared.view.Held.{Held};
ghost use Rattle.uv_guard.specs.declared.view.Role.TheVariants.{Taker, Owner};
ghost use Rattle.uv_guard.specs.declared.life.Stage.TheVariants.{Home, Planted, Doomed, Clear};
ghost use Rattle.uv_guard.specs.Steps.{last, finding, generation_after, first_view, seat_view, one_given, told_by, with_kept, kept_of, buried_view};
ghost use Rattle.uv_guard.specs.Words.{life_word};
ghost use Rattle.uv_guard.specs.Closed.{IsAtRest, Balanced};
ghost use Rattle.uv_order.specs.declared.signed.TheConstants.{SEATS};
ghost use Rattle.uv_guard.specs.Calls.{IsSame, IsOut, IsIn, IsAt, ChairEnters, came_out, Retires};

use crate::celled::Celled;
use crate::plays::{
    Bury, Doom, Fill, Further, Give, Guarded, Look, Plant, Read, Refer, See, Tell, Turn, Unrefer,
    Whole,
};
use crate::view::View;
use atomic_table::{Seat, Table};
use std::alloc::{AllocError, Global};
use std::sync::Wait;
use std::thread;
use uv_num::MOST_GENERATION;
use uv_order::{Taken, log_laws, taking_laws};

pub type Chair<T> = Seat<Option<T>, View<T>>;

/// What a try to enter answers.
#[derive(Drop)]
pub enum Entering<T> {
    /// The value, which is the seat's until it leaves.
    Entered(T),
    /// The life word, which wasn't that of a live cell of this generation.
    Dead(u64),
    /// The turn word: another seat has the value, or was faster.
    Taken(u64),
}

#[derive(Drop)]
pub struct Cell<T: Celled> {
    pub table: Table<Option<T>, View<T>, (), Guarded, Global>,
    ghost sized: { (table.shared.table_id.words ≡ 2) × (table.shared.table_id.slots ≡ 1) },
}

const LIVE: u64 = 1 << 32;

const DYING: u64 = 1 << 33;

impl<T: Celled> Cell<T> {
    /// A cell at generation 0, with its deed.
    pub fn open(alloc: Global) -> Result<(Cell<T>, Chair<T>), AllocError>
        ensures { IfOk result (λ r. (r.1.table_id ≡ r.0.table.shared.table_id) × (r.1.me ≡ (first_view, []))) }
    {
        let (table, deed) = Table::vacant(alloc, &[0, 0], 1, &())?;
        Ok((Cell { table }, deed))
    }

    /// Makes the next seat.
    pub fn fork(&self, deed: &mut Chair<T>) -> Chair<T>
        requires cell { deed.old.table_id ≡ self.now.table.shared.table_id }
        requires deed { (deed.old.me.0.role ≡ Owner) × (deed.old.me.0.kept ≡ []) × (deed.old.me.0.given < SEATS) }
        ensures same { IsSame deed.old deed.new }
        ensures deed { deed.new.me ≡ (one_given deed.old.me.0, deed.old.me.1) }
        ensures seat { (result.table_id ≡ self.now.table.shared.table_id) × (result.me ≡ (seat_view deed.old.me.0.given, [])) }
    {
        log_laws::<Taken<T>>();
        self.table.shared.split_seat::<Further>(deed)
    }

    /// The life word.
    pub fn look(&self, chair: &mut Chair<T>) -> u64
        requires cell { chair.old.table_id ≡ self.now.table.shared.table_id }
        ensures same { IsSame chair.old chair.new }
        ensures view { chair.new.me ≡ finding chair.old.me (life_word result ∷ []) }
    {
        self.table.shared.load::<See>(chair, 0)
    }

    fn unrefer(&self, number: u32, chair: &mut Chair<T>)
        requires cell { chair.old.table_id ≡ self.now.table.shared.table_id }
        requires seat { (chair.old.me.0.role ≡ Taker) × (chair.old.me.0.number ≡ number) × (number < SEATS) × (chair.old.me.0.entered ≡ None) }
        ensures same { IsSame chair.old chair.new }
        ensures view { chair.new.me ≡ (record chair.old.me.0 { refers = None }, chair.old.me.1) }
    {
        self.table
            .shared
            .fetch_and::<Unrefer>(chair, 0, !(1u64 << number));
    }

    /// Tries to enter, by a few steps.
    pub fn enter(&self, number: u32, chair: &mut Chair<T>, generation: u32) -> Entering<T>
        requires cell { chair.old.table_id ≡ self.now.table.shared.table_id }
        requires out { IsOut number chair.old.me }
        ensures same { IsSame chair.old chair.new }
        ensures value { ChairEnters T.goes_on generation chair.old.me result chair.new.me }
    {
        let shared = &self.table.shared;
        let life = shared.fetch_or::<Refer>(chair, 0, 1u64 << number);
        if life >> 32 != u64::from(generation) * 4 + 1 {
            self.unrefer(number, chair);
            return Entering::Dead(life);
        }
        let seen = shared.load::<Read>(chair, 1);
        if seen % 2 == 1 {
            self.unrefer(number, chair);
            return Entering::Taken(seen);
        }
        let found = shared.compare_exchange::<Turn>(chair, 1, seen, seen + 1);
        if found != seen {
            self.unrefer(number, chair);
            return Entering::Taken(found);
        }
        match shared.exchange(chair, 0, None) {
            Some(value) => Entering::Entered(value),
            None => unreachable!(),
        }
    }

    /// Gives the value back.
    pub fn leave(&self, number: u32, chair: &mut Chair<T>, value: T)
        requires cell { chair.old.table_id ≡ self.now.table.shared.table_id }
        requires inside { (h : Held T) × IsIn number h chair.old.me × T.goes_on h.value value }
        ensures same { IsSame chair.old chair.new }
        ensures view { (h : Held T) → chair.old.me.0.entered ≡ Some h → chair.new.me ≡ came_out chair.old.me h value }
    {
        log_laws::<Taken<T>>();
        taking_laws::<T>();
        let shared = &self.table.shared;
        match shared.exchange(chair, 0, Some(value)) {
            None => {}
            Some(_) => unreachable!(),
        }
        shared.fetch_add::<Give>(chair, 1, 1);
        self.unrefer(number, chair);
    }

    pub fn plant(&self, deed: &mut Chair<T>, value: T)
        requires cell { deed.old.table_id ≡ self.now.table.shared.table_id }
        requires home { IsAt Home deed.old.me.0.generation deed.old.me }
        ensures same { IsSame deed.old deed.new }
        ensures planted { deed.new.me ≡ (record deed.old.me.0 { stage = Planted value; plants = deed.old.me.0.plants ++ record { generation = deed.old.me.0.generation; value = value } ∷ [] }, []) }
    {
        let shared = &self.table.shared;
        shared.load::<Fill>(deed, 0);
        match shared.exchange(deed, 0, Some(value)) {
            None => {}
            Some(_) => unreachable!(),
        }
        shared.fetch_or::<Plant>(deed, 0, LIVE);
    }

    pub fn doom(&self, deed: &mut Chair<T>)
        requires cell { deed.old.table_id ≡ self.now.table.shared.table_id }
        requires planted { (p : T) × IsAt (Planted p) deed.old.me.0.generation deed.old.me }
        ensures same { IsSame deed.old deed.new }
        ensures doomed { (p : T) → deed.old.me.0.stage ≡ Planted p → deed.new.me ≡ (record deed.old.me.0 { stage = Doomed p }, []) }
    {
        self.table.shared.fetch_or::<Doom>(deed, 0, DYING);
    }

    // Buries a cell whose value is out.
    fn bury(&self, deed: &mut Chair<T>, generation: u32)
        requires cell { deed.old.table_id ≡ self.now.table.shared.table_id }
        requires clear { (p : T) × (x : T) × (deed.old.me.0.role ≡ Owner) × (deed.old.me.0.stage ≡ Clear p x) × (deed.old.me.0.generation ≡ generation) × (generation ≤ last) × (deed.old.me.1 ≡ (0, None) ∷ []) }
        ensures same { IsSame deed.old deed.new }
        ensures buried { (p : T) (x : T) → deed.old.me.0.stage ≡ Clear p x → deed.new.me ≡ (buried_view deed.old.me.0 p x, []) }
    {
        let next = next_generation(generation);
        self.table
            .shared
            .swap::<Bury>(deed, 0, u64::from(next) << 34);
    }

    /// Waits until no seat refers to the cell, takes the value out and buries the cell.
    pub fn retire<R: Wait>(&self, rt: &R, deed: &mut Chair<T>, generation: u32) -> T
        requires cell { deed.old.table_id ≡ self.now.table.shared.table_id }
        requires doomed { (p : T) × IsAt (Doomed p) generation deed.old.me }
        ensures same { IsSame deed.old deed.new }
        ensures given { (p : T) → deed.old.me.0.stage ≡ Doomed p → Retires T.goes_on p deed.old.me result deed.new.me }
    {
        let shared = &self.table.shared;
        for _ in rt.forever() {
            let life = shared.load::<Look>(deed, 0);
            if life % (1 << 32) == 0 {
                let value = match shared.exchange(deed, 0, None) {
                    Some(value) => value,
                    None => unreachable!(),
                };
                self.bury(deed, generation);
                return value;
            }
            thread::yield_now();
        }
        unreachable!()
    }

    /// Tells a seat what the deed knows of the cell's lives.
    pub fn witness(&self, chair: &mut Chair<T>, deed: &mut Chair<T>)
        requires cell { (chair.old.table_id ≡ self.now.table.shared.table_id) × (deed.old.table_id ≡ self.now.table.shared.table_id) }
        requires seat { chair.old.me.0.role ≡ Taker }
        ensures same { IsSame chair.old chair.new × IsSame deed.old deed.new }
        ensures seat { chair.new.me ≡ (told_by chair.old.me.0 deed.old.me.0, chair.old.me.1) }
        ensures deed { deed.new.me ≡ deed.old.me }
    {
        let shared = &self.table.shared;
        let told = shared.split_seat::<Tell>(deed);
        shared.join_seat::<Tell>(chair, told);
    }

    /// Joins a seat that is out of the cell to the deed.
    pub fn absorb(&self, deed: &mut Chair<T>, seat: Chair<T>)
        requires cell { (deed.old.table_id ≡ self.now.table.shared.table_id) × (seat.table_id ≡ self.now.table.shared.table_id) }
        requires deed { deed.old.me.0.role ≡ Owner }
        requires seat { IsOut seat.me.0.number seat.me }
        ensures same { IsSame deed.old deed.new }
        ensures kept { deed.new.me ≡ (with_kept deed.old.me.0 (kept_of seat.me.0), deed.old.me.1) }
    {
        self.table.shared.join_seat::<Whole>(deed, seat);
    }

    /// Ends the cell, whose seats are joined to the deed, and tells what all of them did.
    pub fn close(self, deed: Chair<T>)
    where
        T: Drop,
        requires cell { deed.table_id ≡ self.table.shared.table_id }
        requires deed { (deed.me.0.role ≡ Owner) × IsAtRest deed.me.0.stage × (deed.me.1 ≡ []) }
        ensures { Balanced T.goes_on deed.me.0.given deed.me.0.plants deed.me.0.lives deed.me.0.kept }
    {
        let Cell { table } = self;
        let mut closed = table.close_with(deed);
        let _value = closed.take(0);
        closed.free();
    }
}

// The generation after this one; the last one stays.
fn next_generation(generation: u32) -> u32
    requires { generation ≤ last }
    ensures next { result ≡ generation_after generation }
    ensures small { result ≤ last }
{
    if generation == MOST_GENERATION {
        generation
    } else {
        generation + 1
    }
}
