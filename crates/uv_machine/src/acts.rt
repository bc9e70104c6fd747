//! Acts: what requests do with objects that stay, and what refuses them.

ghost use Rattle.std.specs.Prelude.{◌≡◌, ◌+◌, nat_le};
ghost use Rattle.uv_num.specs.Access.{has_right};
ghost use Rattle.uv_num.specs.Modify.{modify_of};
ghost use Rattle.uv_machine.specs.Acts.{service_of_found, refused_move, modify_refusal, has_same_domain, lets_bind, has_range, may_bind, inval_unless, bind_refusal, gives_nothing, event_refusal, found_or, act_refusal, found_by, index_of_found, act_answer};

use crate::call::InFlight;
use crate::entry::Answer;
use crate::file::FilePhase;
use crate::object::Object;
use crate::readers::Readers;
use uv_num::{
    ACCESS_LOCAL_WRITE, ACCESS_MW_BIND, ACCESS_REMOTE_WRITE, Act, Errno, QpAttrs, QpState, modify,
};

/// The errno with which an act is refused, if it is.
pub(crate) fn act_refusal<V: Readers>(
    view: &V,
    call: InFlight,
    found: Option<QpState>,
    act: Act,
) -> Option<Errno>
    ensures { result ≡ act_refusal (V.state view.now) call found act }
{
    match act {
        Act::Modify { to, attrs } => modify_refusal(
            view.object_with(call.acted_on()),
            found_or(found),
            to,
            attrs,
        ),
        Act::Query => None,
        Act::Bind {
            offset,
            length,
            access,
        } => bind_refusal(
            view.object_with(call.acted_on()),
            view.object_with(call.looked_at(1)),
            offset,
            length,
            access,
        ),
        Act::Unbind {
            offset,
            length,
            access,
        } => inval_unless(gives_nothing(offset, length, access)),
        Act::Async => event_refusal(view.has_event(call.file), view.phase_of(call.file)),
    }
}

/// What an act that isn't refused answers.
pub(crate) fn act_answer<V: Readers>(
    view: &V,
    call: InFlight,
    found: Option<QpState>,
    act: Act,
) -> Answer
    ensures { result ≡ act_answer (V.state view.now) call found act }
{
    match act {
        Act::Modify { .. } | Act::Bind { .. } | Act::Unbind { .. } => Answer::Ok,
        Act::Query => Answer::State {
            state: found_or(found),
            index: index_of_found(view.object_with(call.acted_on())),
        },
        Act::Async => Answer::Event,
    }
}

pub(crate) fn service_of_found(x: Option<Object>) -> u64
    ensures { result ≡ service_of_found x }
{
    match x {
        None => 0,
        Some(x) => x.service(),
    }
}

fn refused_move(to: Result<QpState, Errno>) -> Option<Errno>
    ensures { result ≡ refused_move to }
{
    match to {
        Ok(_) => None,
        Err(errno) => Some(errno),
    }
}

fn modify_refusal(x: Option<Object>, from: QpState, to: u64, attrs: QpAttrs) -> Option<Errno>
    ensures { result ≡ modify_refusal x from to attrs }
{
    refused_move(modify(service_of_found(x), from, to, &attrs))
}

pub(crate) fn has_same_domain(window: Object, region: Object) -> bool
    ensures { result ≡ has_same_domain window region }
{
    window.domain() == region.domain()
}

pub(crate) fn has_right(right: u64, access: u64) -> bool
    ensures { result ≡ has_right right access }
{
    access & right == right
}

fn lets_bind(region: Object, access: u64) -> bool
    ensures { result ≡ lets_bind region access }
{
    has_right(ACCESS_MW_BIND, region.access())
        && (!has_right(ACCESS_REMOTE_WRITE, access)
            || has_right(ACCESS_LOCAL_WRITE, region.access()))
}

/// Whether a range is within so many bytes. Its end may lie beyond 64 bits.
pub(crate) fn is_within(offset: u64, length: u64, whole: u64) -> bool
    ensures { result ≡ nat_le (offset + length) whole }
{
    length <= whole && offset <= whole - length
}

fn has_range(region: Object, offset: u64, length: u64) -> bool
    ensures { result ≡ has_range region offset length }
{
    length != 0 && is_within(offset, length, region.length())
}

fn may_bind(window: Object, region: Object, offset: u64, length: u64, access: u64) -> bool
    ensures { result ≡ may_bind window region offset length access }
{
    has_same_domain(window, region)
        && lets_bind(region, access)
        && has_range(region, offset, length)
}

fn inval_unless(may: bool) -> Option<Errno>
    ensures { result ≡ inval_unless may }
{
    if may { None } else { Some(Errno::Inval) }
}

fn bind_refusal(
    window: Option<Object>,
    region: Option<Object>,
    offset: u64,
    length: u64,
    access: u64,
) -> Option<Errno>
    ensures { result ≡ bind_refusal window region offset length access }
{
    match (window, region) {
        (None, None) | (None, Some(_)) | (Some(_), None) => Some(Errno::Inval),
        (Some(window), Some(region)) => inval_unless(may_bind(
            window, region, offset, length, access,
        )),
    }
}

pub(crate) fn gives_nothing(offset: u64, length: u64, access: u64) -> bool
    ensures { result ≡ gives_nothing offset length access }
{
    offset == 0 && length == 0 && access == 0
}

fn event_refusal(waits: bool, phase: FilePhase) -> Option<Errno>
    ensures { result ≡ event_refusal waits phase }
{
    if waits {
        return None;
    }
    if phase.is_dissociated() {
        Some(Errno::Io)
    } else {
        Some(Errno::Again)
    }
}

pub(crate) fn found_or(found: Option<QpState>) -> QpState
    ensures { result ≡ found_or found }
{
    match found {
        None => QpState::Reset,
        Some(state) => state,
    }
}

/// The state that goes with an act: that which was found, where the act looks at one.
pub(crate) fn found_by(act: Act, found: Option<QpState>) -> Option<QpState>
    ensures { result ≡ found_by act found }
{
    match act {
        Act::Modify { .. } | Act::Query => Some(found_or(found)),
        Act::Bind { .. } | Act::Unbind { .. } | Act::Async => None,
    }
}

fn index_of_found(x: Option<Object>) -> u32
    ensures { result ≡ index_of_found x }
{
    match x {
        None => 0,
        Some(x) => x.index,
    }
}
