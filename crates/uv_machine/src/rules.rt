//! Which rule refuses an open, an enter or a step: the tests of the refusals, told by name.

ghost use Rattle.std.specs.Prelude.{◌≡◌};
ghost use Rattle.uv_machine.specs.RuleNames.{open_rule, phase_rule, device_rule, first_rule, enter_rule, reserve_rule, try_rule, look_rule_at, look_rule, cell_rule, make_rule, lock_rule_at, lock_rule, check_rule, table_rule, modify_rule_to, modify_rule, range_rule, right_rule, bind_rule, event_rule, act_rule, role_rule, step_rule, next_rule, answered_by, rule_of};
ghost use Rattle.uv_machine.specs.Effects.{refusal_in};

use crate::acts::{
    found_or, gives_nothing, has_right, has_same_domain, is_within, service_of_found,
};
use crate::call::InFlight;
use crate::entry::{Answer, Entry, Word};
use crate::file::FilePhase;
use crate::object::{Object, is_kind};
use crate::outside::needs_device;
use crate::readers::Readers;
use crate::rule::Rule;
use uv_num::{
    ACCESS_LOCAL_WRITE, ACCESS_MW_BIND, ACCESS_REMOTE_WRITE, Act, Ask, Errno, NONE, QpAttrs,
    QpState, Request, Role, modify,
};

/// The rule that refuses an open of a file on a device, if one does; want of memory aside.
pub fn open_rule<V: Readers>(view: &V, file: u32, device: u32) -> Option<Rule>
    ensures { result ≡ open_rule (V.state view.now) file device }
{
    if !view.phase_of(file).is_fresh() {
        return Some(Rule::OpenTwice);
    }
    if view.is_unplugged(device) {
        Some(Rule::OpenUnplugged)
    } else {
        None
    }
}

/// The rule that refuses a request on a file at its enter, if one does; want of memory aside.
pub fn enter_rule<V: Readers>(view: &V, file: u32, request: Request) -> Option<Rule>
    ensures { result ≡ enter_rule (V.state view.now) file request }
{
    match phase_rule(view.phase_of(file)) {
        None => device_rule(view, file, request),
        Some(rule) => Some(rule),
    }
}

fn phase_rule(phase: FilePhase) -> Option<Rule>
    ensures { result ≡ phase_rule phase }
{
    match phase {
        FilePhase::Fresh => Some(Rule::EnterUnopened),
        FilePhase::Tearing { .. } => Some(Rule::EnterTorn),
        FilePhase::Closed => Some(Rule::EnterClosed),
        FilePhase::Open | FilePhase::Dissociated => None,
    }
}

fn device_rule<V: Readers>(view: &V, file: u32, request: Request) -> Option<Rule>
    ensures { result ≡ device_rule (V.state view.now) file request }
{
    if view.is_unplugged(view.device_of(file)) && needs_device(request.role()) {
        Some(Rule::EnterUnplugged)
    } else {
        None
    }
}

/// The rule that refuses the next step of an actor's call, if one is in flight and its step is refused. `found` is the state
/// that an act finds. An exit tells the refusal of an earlier step, and is itself refused by no rule.
pub fn next_rule<V: Readers>(view: &V, actor: u32, found: Option<QpState>) -> Option<Rule>
    ensures { result ≡ next_rule (V.state view.now) actor found }
{
    match view.call_of(actor) {
        None => None,
        Some(call) => step_rule(view, actor, call, found, call.next_word()),
    }
}

fn step_rule<V: Readers>(
    view: &V,
    actor: u32,
    call: InFlight,
    found: Option<QpState>,
    word: Word,
) -> Option<Rule>
    ensures { result ≡ step_rule (V.state view.now) actor call found word }
{
    match word {
        Word::Reserve => reserve_rule(view, call.file),
        Word::Look => look_rule(view, call.file, call.look_ask()),
        Word::Make => make_rule(view, call.request.role()),
        Word::Act => role_rule(view, call, found, call.request.role()),
        Word::Lock => lock_rule(view, actor, call.file, call.request.role()),
        Word::Check => check_rule(view, call.own_object()),
        Word::Commit | Word::Finish | Word::Abort | Word::Free | Word::Exit => None,
    }
}

fn reserve_rule<V: Readers>(view: &V, file: u32) -> Option<Rule>
    ensures { result ≡ reserve_rule (V.state view.now) file }
{
    if view.least_free(file).is_none() {
        Some(Rule::ReserveFull)
    } else {
        None
    }
}

fn look_rule<V: Readers>(view: &V, file: u32, asked: Option<Ask>) -> Option<Rule>
    ensures { result ≡ look_rule (V.state view.now) file asked }
{
    match asked {
        None => None,
        Some(asked) => look_rule_at(view, file, asked, view.published(file, asked.handle)),
    }
}

fn look_rule_at<V: Readers>(view: &V, file: u32, asked: Ask, found: Option<Object>) -> Option<Rule>
    ensures { result ≡ look_rule_at (V.state view.now) file asked found }
{
    match found {
        None => Some(Rule::LookMissing),
        Some(x) => if !is_kind(x.kind, asked.kind) {
            Some(Rule::LookKind)
        } else {
            try_rule(view, file, x.id)
        },
    }
}

fn try_rule<V: Readers>(view: &V, file: u32, id: u32) -> Option<Rule>
    ensures { result ≡ try_rule (V.state view.now) file id }
{
    if view.is_unplugged(view.device_of(file)) {
        return Some(Rule::LookUnplugged);
    }
    if view.is_excluded(id) {
        Some(Rule::LookHeld)
    } else {
        None
    }
}

fn make_rule<V: Readers>(view: &V, role: Role) -> Option<Rule>
    ensures { result ≡ make_rule (V.state view.now) role }
{
    match role {
        Role::Creates(kind) => if view.made() == NONE {
            Some(Rule::MakeIds)
        } else {
            cell_rule(view.home_cell(kind))
        },
        Role::Destroys(_) | Role::Acts(_) => None,
    }
}

fn cell_rule(cell: Option<u32>) -> Option<Rule>
    ensures { result ≡ cell_rule cell }
{
    match cell {
        None => Some(Rule::MakeCells),
        Some(_) => None,
    }
}

fn lock_rule<V: Readers>(view: &V, actor: u32, file: u32, role: Role) -> Option<Rule>
    ensures { result ≡ lock_rule (V.state view.now) actor file role }
{
    match role {
        Role::Creates(_) | Role::Acts(_) => None,
        Role::Destroys(asked) => lock_rule_at(
            view,
            actor,
            asked,
            view.published(file, asked.handle),
        ),
    }
}

fn lock_rule_at<V: Readers>(view: &V, actor: u32, asked: Ask, found: Option<Object>) -> Option<Rule>
    ensures { result ≡ lock_rule_at (V.state view.now) actor asked found }
{
    match found {
        None => Some(Rule::LockMissing),
        Some(x) => if !is_kind(x.kind, asked.kind) {
            Some(Rule::LockKind)
        } else if view.has_others(actor, x.id) {
            Some(Rule::LockHeld)
        } else {
            None
        },
    }
}

fn check_rule<V: Readers>(view: &V, id: u32) -> Option<Rule>
    ensures { result ≡ check_rule (V.state view.now) id }
{
    if view.has_users(id) {
        Some(Rule::CheckUsed)
    } else {
        None
    }
}

fn role_rule<V: Readers>(
    view: &V,
    call: InFlight,
    found: Option<QpState>,
    role: Role,
) -> Option<Rule>
    ensures { result ≡ role_rule (V.state view.now) call found role }
{
    match role {
        Role::Creates(_) | Role::Destroys(_) => None,
        Role::Acts(act) => act_rule(view, call, found, act),
    }
}

fn act_rule<V: Readers>(view: &V, call: InFlight, found: Option<QpState>, act: Act) -> Option<Rule>
    ensures { result ≡ act_rule (V.state view.now) call found act }
{
    match act {
        Act::Modify { to, attrs } => modify_rule(
            view.object_with(call.acted_on()),
            found_or(found),
            to,
            attrs,
        ),
        Act::Query => None,
        Act::Bind {
            offset,
            length,
            access,
        } => bind_rule(
            view.object_with(call.acted_on()),
            view.object_with(call.looked_at(1)),
            offset,
            length,
            access,
        ),
        Act::Unbind {
            offset,
            length,
            access,
        } => if gives_nothing(offset, length, access) {
            None
        } else {
            Some(Rule::UnbindRange)
        },
        Act::Async => event_rule(view.has_event(call.file), view.phase_of(call.file)),
    }
}

fn modify_rule(x: Option<Object>, from: QpState, to: u64, attrs: QpAttrs) -> Option<Rule>
    ensures { result ≡ modify_rule x from to attrs }
{
    modify_rule_to(
        QpState::from_number(to),
        modify(service_of_found(x), from, to, &attrs),
    )
}

fn modify_rule_to(to: Option<QpState>, moved: Result<QpState, Errno>) -> Option<Rule>
    ensures { result ≡ modify_rule_to to moved }
{
    match to {
        None => Some(Rule::ModifyState),
        Some(_) => table_rule(moved),
    }
}

fn table_rule(moved: Result<QpState, Errno>) -> Option<Rule>
    ensures { result ≡ table_rule moved }
{
    match moved {
        Ok(_) => None,
        Err(_) => Some(Rule::ModifyTable),
    }
}

fn bind_rule(
    window: Option<Object>,
    region: Option<Object>,
    offset: u64,
    length: u64,
    access: u64,
) -> Option<Rule>
    ensures { result ≡ bind_rule window region offset length access }
{
    match (window, region) {
        (None, None) | (None, Some(_)) | (Some(_), None) => Some(Rule::BindMissing),
        (Some(window), Some(region)) => if !has_same_domain(window, region) {
            Some(Rule::BindDomain)
        } else {
            right_rule(region, offset, length, access)
        },
    }
}

fn right_rule(region: Object, offset: u64, length: u64, access: u64) -> Option<Rule>
    ensures { result ≡ right_rule region offset length access }
{
    if !has_right(ACCESS_MW_BIND, region.access()) {
        return Some(Rule::BindRight);
    }
    if has_right(ACCESS_REMOTE_WRITE, access) && !has_right(ACCESS_LOCAL_WRITE, region.access()) {
        return Some(Rule::BindWrite);
    }
    range_rule(region, offset, length)
}

fn range_rule(region: Object, offset: u64, length: u64) -> Option<Rule>
    ensures { result ≡ range_rule region offset length }
{
    if length == 0 {
        return Some(Rule::BindEmpty);
    }
    if is_within(offset, length, region.length()) {
        None
    } else {
        Some(Rule::BindRange)
    }
}

fn event_rule(waits: bool, phase: FilePhase) -> Option<Rule>
    ensures { result ≡ event_rule waits phase }
{
    if waits {
        return None;
    }
    if phase.is_dissociated() {
        Some(Rule::EventGone)
    } else {
        Some(Rule::EventNone)
    }
}

/// The rule by which an entry was refused, before the entry is applied. An open or an enter that is refused and that no
/// other rule refuses found no memory.
pub fn rule_of<V: Readers>(view: &V, entry: Entry) -> Option<Rule>
    ensures { result ≡ rule_of (V.state view.now) entry }
{
    match entry {
        Entry::Open {
            file,
            device,
            answer,
            ..
        } => answered_by(open_rule(view, file, device), Rule::OpenMemory, answer),
        Entry::Enter {
            file,
            request,
            answer,
            ..
        } => answered_by(enter_rule(view, file, request), Rule::EnterMemory, answer),
        Entry::Step { client, found, .. } => next_rule(view, client, found),
        Entry::Unplug { .. }
        | Entry::Tear { .. }
        | Entry::Kill { .. }
        | Entry::Gone { .. }
        | Entry::Dissociated { .. }
        | Entry::Closed { .. } => None,
    }
}

fn answered_by(rule: Option<Rule>, want: Rule, answer: Answer) -> Option<Rule>
    ensures { result ≡ answered_by rule want (refusal_in answer) }
{
    match answer.refusal() {
        None => None,
        Some(_) => match rule {
            None => Some(want),
            Some(rule) => Some(rule),
        },
    }
}

#[cfg(test)]
mod tests;
