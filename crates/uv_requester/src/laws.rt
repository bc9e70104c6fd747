//! Laws of the packets of a work, and of turns and ticks.

ghost use Rattle.uv_requester.specs.Laws.{NothingIsLost, SegmentStands, SendTurnsGoOn, TicksGoOn, TurnsMakePackets};

use uv_qp::{pieces_are_few, told_is_in_range, turns_go_on, turns_go_on_in_turn};
use uv_region::lent_regions_go_on;

/// The packet that is made at a place is the one of the whole list.
pub fn segment_stands()
    ensures { SegmentStands }
{}

/// The bytes of all packets of a work, one after another, are the bytes of the work.
pub fn nothing_is_lost()
    ensures { NothingIsLost }
{}

/// By a send turn the queue pair goes on, and its lists gain the completions that are told; the regions go on, and the queue
/// pair alone acts on them, for its own domain.
pub fn send_turns_go_on()
    ensures { SendTurnsGoOn }
{
    turns_go_on();
    turns_go_on_in_turn();
    lent_regions_go_on();
}

/// By a tick the queue pair goes on, and its lists gain the completions that are told.
pub fn ticks_go_on()
    ensures { TicksGoOn }
{
    turns_go_on();
    turns_go_on_in_turn();
}

/// The packets that a send turn makes can be written as bytes.
pub fn turns_make_packets()
    ensures { TurnsMakePackets }
{
    pieces_are_few();
    told_is_in_range();
}
