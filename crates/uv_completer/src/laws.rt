//! Laws of responses.

ghost use Rattle.uv_completer.specs.Laws.{AcknowledgedStaysSo, RepliesGoOn};

use uv_qp::{turns_go_on, turns_go_on_in_turn};
use uv_region::lent_regions_go_on;

/// By a response the queue pair goes on, and its lists gain the completions that are told; the regions go on, and the queue
/// pair alone acts on them, for its own domain.
pub fn replies_go_on()
    ensures { RepliesGoOn }
{
    turns_go_on();
    turns_go_on_in_turn();
    lent_regions_go_on();
}

/// No response moves the oldest packet that waits for an answer back.
pub fn acknowledged_stays_so()
    ensures { AcknowledgedStaysSo }
{}
