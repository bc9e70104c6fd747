//! Which rule refuses a request, a call or command bytes: the tests of the refusals, told by name.

ghost use Rattle.std.specs.Prelude.{◌≡◌, IfOk, Ok, Some};
ghost use Rattle.uv_attr.specs.declared.rule.BytesRule.{BytesRule};
ghost use Rattle.uv_attr.specs.RuleNames.{bytes_rule};
ghost use Rattle.uv_schema.specs.declared.rule.CommandRule.TheVariants as command;
ghost use Rattle.uv_schema.specs.RuleNames.{unmet, region_rule, request_rule, takes_handle, length_rule, attr_rule, attrs_rule, method_rule, call_rule, command_rule};

use crate::attributes::attrs_in_range;
use crate::building::request_in;
use crate::ids::VALUE_BYTES;
use crate::method::{Method, Wanted};
use crate::numbers::{is_device, is_queue_depth, is_service, is_state, is_within};
use crate::refusing::{has_missing, has_wanted, has_wide};
use crate::rights::{has_only, has_right, is_window_access, lets_others_write};
use crate::rule::{CallRule, CommandRule};
use std::alloc::{AllocError, Global};
use uv_attr::{Attr, Call, bytes_rule, decode_call};
use uv_num::{ACCESS_LOCAL_WRITE, CQ_DEPTH, REGION_ACCESS, REGION_BYTES, Request};

fn unmet(met: bool, rule: CallRule) -> Option<CallRule>
    ensures { result ≡ unmet met rule }
{
    if met { None } else { Some(rule) }
}

/// The rule that refuses a request in `check`, if one does: that of the first number that is out of its range.
pub fn request_rule(request: &Request) -> Option<CallRule>
    ensures { result ≡ request_rule request.now }
{
    match *request {
        Request::CreateCq { depth, .. } => unmet(
            is_within(1, CQ_DEPTH as u64, depth),
            CallRule::RangeCq,
        ),
        Request::CreateQp {
            service,
            send_depth,
            recv_depth,
            ..
        } => unmet(is_service(service), CallRule::RangeService).or(unmet(
            is_queue_depth(send_depth),
            CallRule::RangeSends,
        ).or(unmet(is_queue_depth(recv_depth), CallRule::RangeReceives))),
        Request::ModifyQp { to, attrs, .. } => unmet(is_state(to), CallRule::RangeState).or(unmet(
            attrs_in_range(&attrs),
            CallRule::RangeModify,
        )),
        Request::CreateSrq { depth, .. } => unmet(is_queue_depth(depth), CallRule::RangeSrq),
        Request::CreateAh { device, .. } => unmet(is_device(device), CallRule::RangeDevice),
        Request::RegMr { length, access, .. } => region_rule(length, access),
        Request::BindMw { access, .. } => unmet(is_window_access(access), CallRule::RangeWindow),
        Request::AllocPd
        | Request::DeallocPd { .. }
        | Request::CreateChannel
        | Request::DestroyChannel { .. }
        | Request::DestroyCq { .. }
        | Request::DestroyQp { .. }
        | Request::QueryQp { .. }
        | Request::DestroySrq { .. }
        | Request::DestroyAh { .. }
        | Request::DeregMr { .. }
        | Request::AllocMw { .. }
        | Request::DeallocMw { .. }
        | Request::GetAsync => None,
    }
}

fn region_rule(length: u64, access: u64) -> Option<CallRule>
    ensures { result ≡ region_rule length access }
{
    let owner_writes = has_right(ACCESS_LOCAL_WRITE, access) || !lets_others_write(access);
    unmet(
        is_within(1, REGION_BYTES as u64, length),
        CallRule::RangeLength,
    )
    .or(unmet(has_only(REGION_ACCESS, access), CallRule::RangeRights).or(unmet(
        owner_writes,
        CallRule::RangeWrite,
    )))
}

fn takes_handle(wanted: &[Wanted], id: u16) -> bool
    ensures { result ≡ takes_handle wanted.now id }
{
    wanted.iter().any(|one| one.is_handle() && one.id() == id)
}

fn length_rule(wanted: &[Wanted], id: u16) -> CallRule
    ensures { result ≡ length_rule wanted.now id }
{
    if takes_handle(wanted, id) {
        CallRule::AttrHandle
    } else {
        CallRule::AttrLength
    }
}

fn attr_rule(wanted: &[Wanted], attr: Attr) -> Option<CallRule>
    ensures { result ≡ attr_rule wanted.now attr }
{
    if has_wanted(wanted, attr.id) {
        if attr.len == VALUE_BYTES {
            None
        } else {
            Some(length_rule(wanted, attr.id))
        }
    } else if attr.mandatory {
        Some(CallRule::AttrUnknown)
    } else {
        None
    }
}

fn attrs_rule(wanted: &[Wanted], attrs: &[Attr]) -> Option<CallRule>
    ensures { result ≡ attrs_rule wanted.now attrs.now }
{
    for attr in attrs {
        if let Some(rule) = attr_rule(wanted, *attr) {
            return Some(rule);
        }
    }
    None
}

fn method_rule(method: Method, attrs: &[Attr]) -> Option<CallRule>
    ensures { result ≡ method_rule method attrs.now }
{
    if let Some(rule) = attrs_rule(method.wanted(), attrs) {
        return Some(rule);
    }
    if has_missing(method, attrs) {
        return Some(CallRule::AttrMissing);
    }
    if has_wide(method, attrs) {
        return Some(CallRule::RangeHandle);
    }
    request_rule(&request_in(method, attrs))
}

/// The rule that refuses a call in `request_of`, if one does. No memory is taken.
pub fn call_rule(call: &Call) -> Option<CallRule>
    ensures { result ≡ call_rule call.now }
{
    match Method::numbered(call.object, call.method) {
        None => Some(CallRule::MethodUnknown),
        Some(method) => method_rule(method, call.attrs.as_slice()),
    }
}

/// The rule that refuses command bytes in `command`, if one does. Only where memory runs out there is no answer; bytes that are
/// refused as bytes take none.
pub fn command_rule(alloc: Global, bytes: &[u8]) -> Result<Option<CommandRule>, AllocError>
    ensures refused { (rule : BytesRule) → bytes_rule bytes.now ≡ Some rule → result ≡ Ok (Some (command.Bytes rule)) }
    ensures told { IfOk result (λ rule. rule ≡ command_rule bytes.now) }
{
    if let Some(rule) = bytes_rule(bytes) {
        return Ok(Some(CommandRule::Bytes(rule)));
    }
    let call = decode_call(alloc, bytes).map_err(|_| AllocError)?;
    match call_rule(&call) {
        Some(rule) => Ok(Some(CommandRule::Call(rule))),
        None => Ok(None),
    }
}

#[cfg(test)]
mod tests;
