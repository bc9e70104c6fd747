//! A turn and a meeting, step by step.
ghost use Rattle.std.specs.Prelude.{◌≡◌, true, []};
ghost use Rattle.uv_num.specs.Prefix.{IsPrefix};
ghost use Rattle.uv_order.specs.Seen.{longer, Quiet};
ghost use Rattle.uv_order.specs.Names.{AreNamed};
ghost use Rattle.uv_desk.specs.Plays.{Took};
ghost use Rattle.uv_desk.specs.Seats.{IsSized, IsReady, IsSame};
ghost use Rattle.uv_desk.specs.Answers.{MayMeet, Answer};

use crate::machine::Machine;
use crate::plays::{Board, Chair, Draw, Learn, Look, PassOn, Tell};
use std::sync::Wait;
use std::thread;
use uv_order::log_laws;

/// Waits until the seat's ticket is served, and takes the machine.
fn take<M: Machine, R: Wait>(board: &Board<M>, rt: &R, chair: &mut Chair<M>) -> M
    requires desk { IsSized board.now.table_id × (chair.old.table_id ≡ board.now.table_id) }
    requires ready { IsReady chair.old.me }
    ensures same { IsSame chair.old chair.new }
    ensures took { Took M.history M.own M.names chair.old.me result chair.new.me }
{
    log_laws::<M::Entry>();
    let mine = board.fetch_add::<Draw>(chair, 0, 1);
    for _ in rt.forever() {
        if board.load::<Look<M>>(chair, 1) == mine {
            return match board.exchange(chair, 0, None) {
                Some(machine) => machine,
                None => unreachable!(),
            };
        }
        thread::yield_now();
    }
    unreachable!()
}

/// One turn of the seat of this number: takes the machine, lets it answer, puts it back, and only then serves the
/// next ticket.
pub fn turn_at<M: Machine, R: Wait>(
    board: &Board<M>,
    rt: &R,
    number: u32,
    chair: &mut Chair<M>,
    input: M::Input,
) -> M::Output
    requires desk { IsSized board.now.table_id × (chair.old.table_id ≡ board.now.table_id) }
    requires ready { IsReady chair.old.me × (chair.old.me.0.number ≡ number) }
    requires may { MayMeet M.may chair.old.me.0.own input }
    ensures same { IsSame chair.old chair.new }
    ensures answer { Answer M.answers M.names chair.old.me.0.number chair.old.me.0.seen chair.old.me.0.own input result chair.new.me.0.seen chair.new.me.0.own }
    ensures kept { chair.new.me ≡ (record chair.old.me.0 { ticket = None; held = None; seen = chair.new.me.0.seen; own = chair.new.me.0.own }, []) }
{
    log_laws::<M::Entry>();
    let mut machine = take(board, rt, chair);
    let output = machine.apply(number, input);
    match board.exchange(chair, 0, Some(machine)) {
        None => {}
        Some(_) => unreachable!(),
    }
    board.fetch_add::<PassOn<M>>(chair, 1, 1);
    output
}

/// The seat is told what the other has seen, by a guest that the other makes and the seat takes in, and learns by a
/// look at the words that it begins the log.
pub fn meet_at<M: Machine>(board: &Board<M>, chair: &mut Chair<M>, other: &mut Chair<M>)
    requires desk { IsSized board.now.table_id × (chair.old.table_id ≡ board.now.table_id) × (other.old.table_id ≡ board.now.table_id) }
    requires numbered { chair.old.me.0.numbered ≡ true }
    ensures same { IsSame chair.old chair.new × IsSame other.old other.new }
    ensures kept { (chair.new.me ≡ (record chair.old.me.0 { seen = longer chair.old.me.0.seen other.old.me.0.seen; told = [] }, chair.old.me.1)) × (other.new.me ≡ other.old.me) }
    ensures added { Quiet chair.old.me.0.number (longer chair.old.me.0.seen other.old.me.0.seen) chair.old.me.0.seen × IsPrefix other.old.me.0.seen (longer chair.old.me.0.seen other.old.me.0.seen) × AreNamed M.names (longer chair.old.me.0.seen other.old.me.0.seen) }
{
    log_laws::<M::Entry>();
    let guest = board.split_seat::<Tell>(other);
    board.join_seat::<Tell>(chair, guest);
    board.load::<Learn<M>>(chair, 1);
}
