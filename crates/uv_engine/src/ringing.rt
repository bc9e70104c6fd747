//! How completions come into the rings.

ghost use Rattle.std.specs.Prelude.{◌≡◌};
ghost use Rattle.uv_qp.specs.GoingOn.{is_of_receive};
ghost use Rattle.uv_engine.specs.Ringing.{all_rung, channel_rung, cq_rung, is_shared, rung, rung_by_receive, rung_in_sends, has_event_room, with_event};

use crate::lent::{CqLent, Lent};
use uv_cq::Channel;
use uv_wr::{Completion, What};

fn is_of_receive(completion: Completion) -> bool
    ensures { result ≡ is_of_receive completion }
{
    match completion.what {
        What::Recv => true,
        What::Send | What::Write | What::Read | What::Ud => false,
    }
}

/// Puts an event into a channel, if there is one and it isn't full.
fn tell(channel: &mut Option<Channel>, cell: u32) -> bool
    ensures told { result ≡ has_event_room channel.old }
    ensures events { channel.new ≡ with_event channel.old cell }
{
    match channel.take() {
        None => false,
        Some(lent) => {
            let mut lent = lent;
            let told = lent.put(cell);
            *channel = Some(lent);
            told
        }
    }
}

/// Pushes a completion, and tells the channel where the ring is armed for it (`rxe_cq_post`, `rxe_cq.c`). The ring is disarmed
/// exactly where the channel took the event.
fn ring_cq(cq: &mut CqLent, channel: &mut Option<Channel>, completion: Completion, solicited: bool)
    ensures cq { cq.new ≡ cq_rung cq.old channel.old completion solicited }
    ensures channel { channel.new ≡ channel_rung cq.old channel.old completion solicited }
{
    let pushed = cq.ring.push(completion, solicited);
    if pushed.event && tell(channel, cq.cell) {
        cq.ring.disarm();
    }
}

/// Whether two completion queues have one channel.
fn is_shared(first: Option<u32>, second: Option<u32>) -> bool
    ensures { result ≡ is_shared first second }
{
    match (first, second) {
        (Some(first), Some(second)) => first == second,
        (None, _) | (Some(_), None) => false,
    }
}

fn ring_sends(lent: &mut Lent, completion: Completion, solicited: bool)
    ensures { lent.new ≡ rung_in_sends lent.old completion solicited }
{
    ring_cq(
        &mut lent.send,
        &mut lent.send_channel,
        completion,
        solicited,
    );
}

fn ring_receives(lent: &mut Lent, completion: Completion, solicited: bool)
    ensures { lent.new ≡ rung_by_receive lent.old lent.old.receive completion solicited }
{
    match lent.receive.take() {
        None => ring_sends(lent, completion, solicited),
        Some(cq) => {
            let mut cq = cq;
            if is_shared(lent.send.channel, cq.channel) {
                ring_cq(&mut cq, &mut lent.send_channel, completion, solicited);
            } else {
                ring_cq(&mut cq, &mut lent.receive_channel, completion, solicited);
            }
            lent.receive = Some(cq);
        }
    }
}

/// Puts a completion into its ring.
fn ring(lent: &mut Lent, completion: Completion, solicited: bool)
    ensures { lent.new ≡ rung lent.old completion solicited }
{
    if is_of_receive(completion) {
        ring_receives(lent, completion, solicited);
    } else {
        ring_sends(lent, completion, false);
    }
}

/// Puts completions into their rings, in order. `solicited` says that the packet of the action asks for an event.
pub(crate) fn ring_all(lent: &mut Lent, completions: &[Completion], solicited: bool)
    ensures { lent.new ≡ all_rung lent.old completions.now solicited }
{
    for completion in completions {
        ring(lent, *completion, solicited);
    }
}
