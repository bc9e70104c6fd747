//! Whether the conditions of calls hold, read off a core of plain deeds.

ghost use Rattle.std.specs.Prelude.{◌≡◌, ◌≢◌, ◌↔◌, true, IfSome, IsTrue, is_some};
ghost use Rattle.uv_num.specs.declared.limits.TheConstants.{DRIVER};
ghost use Rattle.uv_machine.specs.declared.entry.Word.TheVariants as words;
ghost use Rattle.uv_machine.specs.Files.{AreOver};
ghost use Rattle.uv_machine.specs.Filed.{is_over};
ghost use Rattle.uv_machine.specs.Histories.{IsActor, state_of};
ghost use Rattle.uv_machine.specs.Plans.{next_word};
ghost use Rattle.uv_graph.specs.Conditions.{ComesPlanted, IsClient, IsFinishing, IsReady, IsReleasing, IsSweeper, IsTouching, Pulls, role_finds, role_touches};
ghost use Rattle.uv_graph.specs.Owns.{own_of};
ghost use Rattle.uv_core.specs.Roles.{is_any};

use crate::Core;
use uv_machine::{FilePhase, InFlight, Readers, Word};
use uv_num::{ACTORS, Act, CLIENTS, DEVICES, DRIVER, FILES, QpState, Role};
use uv_pool::Deed;
use uv_pool::plain::PlainDeed;

pub fn is_client(client: u32) -> bool
    ensures { IsTrue result ↔ IsClient client }
{
    1 <= client && client <= CLIENTS
}

/// Whether an actor may close files: each but the driver may.
pub fn is_closer(by: u32) -> bool
    ensures actor { IsTrue result → IsActor by }
    ensures other { IsTrue result → by ≢ DRIVER }
{
    1 <= by && by <= ACTORS && by != DRIVER
}

pub fn may_step(core: &Core<PlainDeed>, client: u32) -> bool
    requires { IsClient client }
    ensures { IsTrue result → IsReady is_any (own_of core.now client) }
{
    core.graph.call_of(client).is_some() && core.graph.out_of(client).is_none()
}

fn is_committing(call: InFlight) -> bool
    ensures { IsTrue result → next_word call ≡ words.Commit }
{
    call.next_word() == Word::Commit
}

/// Whether the deed that the client's call has out is planted for the call's new object.
pub fn comes_planted(core: &Core<PlainDeed>, client: u32, deed: &PlainDeed) -> bool
    ensures { IsTrue result → ComesPlanted (own_of core.now client) (⟦<PlainDeed as Deed>⟧.facts deed.now) }
{
    let Some(call) = core.graph.call_of(client) else {
        return false;
    };
    match core.graph.out_of(client) {
        None => false,
        Some(out) => is_committing(call)
            && deed.is_planted_for(out.identity, out.index, out.generation),
    }
}

fn is_finishing(call: InFlight) -> bool
    ensures { IsTrue result → next_word call ≡ words.Finish }
{
    call.next_word() == Word::Finish
}

/// Whether the deed that the client's call has out is buried, and the call finishes its object next.
pub fn may_finish(core: &Core<PlainDeed>, client: u32, deed: &PlainDeed) -> bool
    requires { IsClient client }
    ensures { IsTrue result → IsFinishing (own_of core.now client) (⟦<PlainDeed as Deed>⟧.facts deed.now) }
{
    let Some(call) = core.graph.call_of(client) else {
        return false;
    };
    match core.graph.out_of(client) {
        None => false,
        Some(out) => is_finishing(call)
            && deed.is_buried(out.identity.kind, out.index, out.generation),
    }
}

/// The state that an act is to be told, where its request touches a cell.
fn found_by(role: Role) -> Option<Option<QpState>>
    ensures touches { IfSome result (λ found. role_touches role ≡ true) }
    ensures finds { IfSome result (λ found. is_some found ≡ role_finds role) }
{
    match role {
        Role::Creates(_) | Role::Destroys(_) => None,
        Role::Acts(act) => match act {
            Act::Modify { .. } | Act::Query => Some(Some(QpState::Reset)),
            Act::Bind { .. } | Act::Unbind { .. } => Some(None),
            Act::Async => None,
        },
    }
}

fn is_acting(call: InFlight) -> bool
    ensures { IsTrue result → next_word call ≡ words.Act }
{
    call.next_word() == Word::Act
}

/// What the act of the client's call is to be told, where it comes next and touches a cell.
pub fn touched(core: &Core<PlainDeed>, client: u32) -> Option<Option<QpState>>
    requires { IsClient client }
    ensures { IfSome result (λ found. IsTouching (own_of core.now client) found) }
{
    let Some(call) = core.graph.call_of(client) else {
        return None;
    };
    if core.graph.out_of(client).is_some() || !is_acting(call) {
        return None;
    }
    found_by(call.request.role())
}

/// Whether the driver has pulled the device.
pub fn has_pulled(core: &Core<PlainDeed>, device: u32) -> bool
    ensures { IsTrue result → Pulls (own_of core.now DRIVER) device }
{
    (device as usize) < DEVICES && core.graph.is_unplugged(device)
}

pub fn may_sweep(core: &Core<PlainDeed>, by: u32, file: u32) -> bool
    ensures { IsTrue result → IsSweeper (own_of core.now by) file }
{
    core.graph.torn_by(by) == Some(file) && core.graph.kill_of(by).is_none()
}

pub fn may_release(core: &Core<PlainDeed>, by: u32, file: u32, deed: &PlainDeed) -> bool
    ensures { IsTrue result → IsReleasing (own_of core.now by) file (⟦<PlainDeed as Deed>⟧.facts deed.now) }
{
    if core.graph.torn_by(by) != Some(file) {
        return false;
    }
    match core.graph.kill_of(by) {
        None => false,
        Some(out) => deed.is_buried(out.identity.kind, out.index, out.generation),
    }
}

fn is_over(phase: FilePhase) -> bool
    ensures { result ≡ is_over phase }
{
    match phase {
        FilePhase::Fresh | FilePhase::Closed => true,
        FilePhase::Open | FilePhase::Tearing { .. } | FilePhase::Dissociated => false,
    }
}

/// Whether each file was never opened, or is closed.
pub fn are_over(core: &Core<PlainDeed>) -> bool
    ensures { IsTrue result → AreOver (state_of core.now.history) }
{
    core.graph.is_legal();
    for file in 0..FILES as u32 {
        if !is_over(core.graph.phase_of(file)) {
            return false;
        }
    }
    true
}
