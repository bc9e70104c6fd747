//! How works end by a response.

ghost use Rattle.std.specs.Prelude.{◌≡◌, ◌≤◌, ◌<◌, ◌+◌, ◌++◌, [], true, false, length, IfOk};
ghost use Rattle.uv_qp.specs.declared.turns.TurnDone.TheVariants as TurnDone;
ghost use Rattle.uv_qp.specs.Pairs.{is_broken, packets_waiting, IsRequesting};
ghost use Rattle.uv_qp.specs.Writers.{with_requester};
ghost use Rattle.uv_wr.specs.Statuses.{is_failure};
ghost use Rattle.uv_completer.specs.Replies.{broke_at, ignored, went_on, succeeded, successes, ReplyGives};

use std::alloc::{AllocError, Global};
use uv_num::{List, Stock};
use uv_qp::{Qp, Requester, TurnDone, TurnWord};
use uv_wr::{Completion, Status};

/// No completions, with room for so many.
pub(crate) fn room_for(alloc: Global, count: usize) -> Result<Stock<Completion>, AllocError>
    ensures items { IfOk result (λ s. s.items ≡ []) }
    ensures room { IfOk result (λ s. s.room ≡ count) }
{
    let mut stock = Stock::new(alloc);
    stock.widen(count)?;
    Ok(stock)
}

/// What is told of a response.
fn told_of(alloc: Global, word: TurnWord, told: Stock<Completion>) -> TurnDone
    ensures { result ≡ TurnDone.Turned word 0 [] told.items }
{
    TurnDone::Turned {
        word,
        to: 0,
        packets: List::new(alloc),
        completions: List::from_vec(told.into_vec()),
    }
}

/// Tells that a response means nothing here.
pub(crate) fn ignore(alloc: Global, qp: &Qp) -> TurnDone
    ensures { ReplyGives qp.now (ignored qp.now) result qp.now }
{
    let _ = qp;
    told_of(alloc, TurnWord::Ignored, Stock::new(alloc))
}

/// Ends so many of the oldest sends with success.
#[tactic(auto, using(crate::proofs::Succeeding::has_next, crate::proofs::Succeeding::succeeded_state))]
fn succeed(qp: &mut Qp, count: u32, told: &mut Stock<Completion>)
    requires unbroken { is_broken qp.old.state ≡ false }
    requires some { count ≤ length qp.old.sends.works }
    requires room { count ≤ told.old.room }
    ensures pair { qp.new ≡ succeeded qp.old count }
    ensures told { told.new.items ≡ told.old.items ++ successes qp.old count }
    ensures room { told.new.room + count ≡ told.old.room }
{
    for _ in 0..count {
        told.put(qp.complete_send(Status::Success));
    }
}

/// Puts the requester elsewhere, and ends so many of the oldest sends with success. It takes no memory.
pub(crate) fn move_on(
    alloc: Global,
    qp: &mut Qp,
    word: TurnWord,
    works: u32,
    requester: Requester,
    room: Stock<Completion>,
) -> TurnDone
    requires unbroken { is_broken qp.old.state ≡ false }
    requires some { works ≤ length qp.old.sends.works }
    requires requesting { IsRequesting requester (packets_waiting qp.old) }
    requires none { room.items ≡ [] }
    requires room { works ≤ room.room }
    ensures told { result ≡ TurnDone.Turned word 0 [] (successes qp.old works) }
    ensures pair { qp.new ≡ succeeded (with_requester qp.old requester) works }
{
    let mut told = room;
    qp.set_requester(requester);
    succeed(qp, works, &mut told);
    told_of(alloc, word, told)
}

/// The same, with the room of the completions. Out of memory it changes nothing.
pub(crate) fn go_on(
    alloc: Global,
    qp: &mut Qp,
    word: TurnWord,
    works: u32,
    requester: Requester,
) -> TurnDone
    requires unbroken { is_broken qp.old.state ≡ false }
    requires some { works ≤ length qp.old.sends.works }
    requires requesting { IsRequesting requester (packets_waiting qp.old) }
    ensures { ReplyGives qp.old (went_on word works requester qp.old) result qp.new }
{
    match room_for(alloc, works as usize) {
        Err(AllocError) => TurnDone::NoMemory,
        Ok(room) => move_on(alloc, qp, word, works, requester, room),
    }
}

/// Puts the requester elsewhere, ends so many of the oldest sends with success, and the next one with a status that breaks the
/// queue pair (`do_complete`, `rxe_qp_error`, `rxe_comp.c`). Out of memory it changes nothing.
#[tactic(auto, using(crate::proofs::Succeeding::has_next, crate::proofs::Succeeding::failure_told))]
pub(crate) fn break_at(
    alloc: Global,
    qp: &mut Qp,
    word: TurnWord,
    works: u32,
    requester: Requester,
    status: Status,
) -> TurnDone
    requires unbroken { is_broken qp.old.state ≡ false }
    requires there { works < length qp.old.sends.works }
    requires requesting { IsRequesting requester (packets_waiting qp.old) }
    requires failure { is_failure status ≡ true }
    ensures { ReplyGives qp.old (broke_at word works requester status qp.old) result qp.new }
{
    match room_for(alloc, works as usize + 1) {
        Err(AllocError) => TurnDone::NoMemory,
        Ok(room) => {
            let mut told = room;
            qp.set_requester(requester);
            succeed(qp, works, &mut told);
            qp.fail();
            told.put(qp.complete_send(status));
            told_of(alloc, word, told)
        }
    }
}
