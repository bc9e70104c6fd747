//! How works end by a turn: flushed, or failed with those before them.

ghost use Rattle.std.specs.Prelude.{◌≡◌, ◌≤◌, ◌<◌, ◌+◌, ◌++◌, [], true, is_some, length, IfOk, Some};
ghost use Rattle.uv_qp.specs.declared.turns.TurnDone.TheVariants as TurnDone;
ghost use Rattle.uv_qp.specs.Pairs.{is_broken, next_receive, next_send};
ghost use Rattle.uv_qp.specs.Writers.{broken};
ghost use Rattle.uv_wr.specs.Statuses.{is_failure};
ghost use Rattle.uv_requester.specs.Ends.{failed_at, flush_completions, flush_made, receive_flushed, send_flushed, sends_flushed, MadeGives};

use std::alloc::{AllocError, Global};
use uv_num::{List, Stock};
use uv_qp::{Qp, TurnDone, TurnWord};
use uv_wr::{Completion, Status};

/// No items, with room for so many.
pub(crate) fn with_places<T: Drop>(alloc: Global, places: usize) -> Result<Stock<T>, AllocError>
    ensures items { IfOk result (λ s. s.items ≡ []) }
    ensures room { IfOk result (λ s. s.room ≡ places) }
{
    let mut stock = Stock::new(alloc);
    stock.widen(places)?;
    Ok(stock)
}

/// The items of a stock, as a list.
pub(crate) fn listed<T>(stock: Stock<T>) -> List<T>
    ensures { result ≡ stock.items }
{
    List::from_vec(stock.into_vec())
}

/// What is told of a turn that ends works, and sends nothing.
fn ended(alloc: Global, word: TurnWord, told: Stock<Completion>) -> TurnDone
    ensures { result ≡ TurnDone.Turned word 0 [] told.items }
{
    TurnDone::Turned {
        word,
        to: 0,
        packets: List::new(alloc),
        completions: listed(told),
    }
}

/// Flushes so many of the oldest sends of a broken queue pair.
fn flush_sends(qp: &mut Qp, count: u32, told: &mut Stock<Completion>)
    requires broken { is_broken qp.old.state ≡ true }
    requires some { count ≤ length qp.old.sends.works }
    requires room { count ≤ told.old.room }
    ensures pair { qp.new ≡ sends_flushed qp.old count }
    ensures told { told.new.items ≡ told.old.items ++ flush_completions qp.old count }
    ensures room { told.new.room + count ≡ told.old.room }
    ensures broken { is_broken qp.new.state ≡ true }
    ensures rest { length qp.new.sends.works + count ≡ length qp.old.sends.works }
{
    for _ in 0..count {
        told.put(qp.complete_send(Status::WrFlushErr));
    }
}

/// Breaks a queue pair at one of its sends, which ends with a status; those that are older are flushed. Out of memory it
/// changes nothing.
pub(crate) fn fail_at(alloc: Global, qp: &mut Qp, place: u32, status: Status) -> TurnDone
    requires there { place < length qp.old.sends.works }
    requires failure { is_failure status ≡ true }
    ensures { MadeGives qp.old (Some (failed_at qp.old place status)) result qp.new }
{
    match with_places(alloc, place as usize + 1) {
        Err(AllocError) => TurnDone::NoMemory,
        Ok(stock) => {
            let mut told = stock;
            qp.fail();
            flush_sends(qp, place, &mut told);
            told.put(qp.complete_send(status));
            ended(alloc, TurnWord::Failed, told)
        }
    }
}

/// Flushes the oldest work of a broken queue pair, if one waits: a send, else a receive, that of a message in progress before
/// those of its queue (`rxe_completer`, `flush_send_queue`; `rxe_responder`, `flush_recv_queue`).
pub(crate) fn flush(alloc: Global, qp: &mut Qp) -> TurnDone
    requires { is_broken qp.old.state ≡ true }
    ensures { MadeGives qp.old (flush_made qp.old) result qp.new }
{
    if qp.next_send().is_some() {
        return flush_send(alloc, qp);
    }
    if qp.next_receive().is_some() {
        return flush_receive(alloc, qp);
    }
    TurnDone::Idle
}

fn flush_send(alloc: Global, qp: &mut Qp) -> TurnDone
    requires broken { is_broken qp.old.state ≡ true }
    requires next { is_some (next_send qp.old) ≡ true }
    ensures { MadeGives qp.old (Some (send_flushed qp.old)) result qp.new }
{
    match with_places(alloc, 1) {
        Err(AllocError) => TurnDone::NoMemory,
        Ok(stock) => {
            let mut told = stock;
            told.put(qp.complete_send(Status::WrFlushErr));
            ended(alloc, TurnWord::Flushed, told)
        }
    }
}

fn flush_receive(alloc: Global, qp: &mut Qp) -> TurnDone
    requires broken { is_broken qp.old.state ≡ true }
    requires next { is_some (next_receive qp.old) ≡ true }
    ensures { MadeGives qp.old (Some (receive_flushed qp.old)) result qp.new }
{
    match with_places(alloc, 1) {
        Err(AllocError) => TurnDone::NoMemory,
        Ok(stock) => {
            let mut told = stock;
            told.put(qp.complete_receive(Status::WrFlushErr, 0, None));
            ended(alloc, TurnWord::Flushed, told)
        }
    }
}
