//! What an action does to the bytes of a region.

ghost use Rattle.std.specs.Prelude.{◌≡◌, ◌+◌, ◌≤◌, ◌++◌, length, replicate, IfOk, true, false};
ghost use Rattle.uv_region.specs.Actions.{plain, is_read};
ghost use Rattle.uv_region.specs.Replay.{standing, effect, overwritten};
ghost use Rattle.uv_region.specs.Acting.{journalled, read_by, length_read};

use crate::action::Action;
use std::alloc::{AllocError, Global};
use uv_num::Bytes;

/// Puts a piece in the place of the bytes from one on.
fn overwrite(bytes: &mut [u8], at: usize, piece: &[u8])
    requires { at + length piece.now ≤ length bytes.old }
    ensures { bytes.new ≡ overwritten at piece.now bytes.old }
{
    bytes[at..at + piece.len()].copy_from_slice(piece);
}

/// The bytes at an action's place.
pub(crate) fn standing<'a>(bytes: &'a [u8], action: &Action) -> &'a [u8]
    requires { action.now.offset + action.now.length ≤ length bytes.now }
    ensures { result.now ≡ standing (plain action.now) bytes.now }
{
    let from = action.offset as usize;
    &bytes[from..from + action.length as usize]
}

/// Fills the bytes of a read with those at its place.
fn fill(bytes: &[u8], action: &mut Action, out: &mut [u8])
    requires inside { action.old.offset + action.old.length ≤ length bytes.now }
    requires whole { length action.old.bytes.bytes ≡ action.old.length }
    requires out { length out.old ≡ action.old.length }
    ensures action { plain action.new ≡ record (plain action.old) { bytes = standing (plain action.old) bytes.now } }
    ensures out { out.new ≡ standing (plain action.old) bytes.now }
{
    let piece = standing(bytes, action);
    out.copy_from_slice(piece);
    action.bytes.as_mut_slice().copy_from_slice(piece);
}

/// Does an action, and gives it as the journal holds it.
pub(crate) fn apply(bytes: &mut [u8], action: Action, out: &mut [u8]) -> Action
    requires inside { action.offset + action.length ≤ length bytes.old }
    requires whole { length action.bytes.bytes ≡ action.length }
    requires out { length out.old ≡ length_read (plain action) }
    ensures bytes { bytes.new ≡ effect (plain action) bytes.old }
    ensures action { plain result ≡ journalled (plain action) bytes.old }
    ensures out { out.new ≡ read_by (plain action) bytes.old }
{
    let mut action = action;
    if action.kind.is_read() {
        fill(bytes, &mut action, out);
    } else {
        overwrite(bytes, action.offset as usize, action.bytes.as_slice());
    }
    action
}

/// Does a read, puts what it reads behind a payload, and gives the action as the journal holds it.
pub(crate) fn read_into(bytes: &[u8], action: Action, payload: &mut Bytes) -> Action
    requires reads { is_read action.kind ≡ true }
    requires inside { action.offset + action.length ≤ length bytes.now }
    requires whole { length action.bytes.bytes ≡ action.length }
    requires spare { action.length ≤ payload.old.spare }
    ensures action { plain result ≡ journalled (plain action) bytes.now }
    ensures payload { payload.new.bytes ≡ payload.old.bytes ++ read_by (plain action) bytes.now }
    ensures spare { payload.old.spare ≤ payload.new.spare + action.length }
{
    let mut action = action;
    let piece = standing(bytes, &action);
    payload.put_all(piece);
    action.bytes.as_mut_slice().copy_from_slice(piece);
    action
}

/// The bytes that an action reads, none where it writes, to be told to whoever acts.
pub(crate) fn read_by(alloc: Global, bytes: &[u8], action: &Action) -> Result<Bytes, AllocError>
    requires { action.now.offset + action.now.length ≤ length bytes.now }
    ensures bytes { IfOk result (λ told. told.bytes ≡ read_by (plain action.now) bytes.now) }
    ensures count { IfOk result (λ told. length told.bytes ≡ length_read (plain action.now)) }
{
    if action.kind.is_read() {
        action_bytes(alloc, standing(bytes, action))
    } else {
        action_bytes(alloc, &[])
    }
}

/// A copy of an action as the journal holds it.
pub(crate) fn journalled(alloc: Global, bytes: &[u8], action: &Action) -> Result<Action, AllocError>
    requires inside { action.now.offset + action.now.length ≤ length bytes.now }
    requires whole { is_read action.now.kind ≡ false → length action.now.bytes.bytes ≡ action.now.length }
    ensures copy { IfOk result (λ copy. plain copy ≡ journalled (plain action.now) bytes.now) }
    ensures whole { IfOk result (λ copy. length copy.bytes.bytes ≡ copy.length) }
{
    let held = if action.kind.is_read() {
        action_bytes(alloc, standing(bytes, action))?
    } else {
        action_bytes(alloc, action.bytes.as_slice())?
    };
    Ok(Action {
        kind: action.kind,
        offset: action.offset,
        length: action.length,
        bytes: held,
        qp: action.qp,
        domain: action.domain,
        window: action.window,
    })
}

/// The bytes of an action that writes these: as many as there are, with no more memory than they need, since a journal
/// keeps them.
pub fn action_bytes(alloc: Global, piece: &[u8]) -> Result<Bytes, AllocError>
    ensures { IfOk result (λ copy. copy.bytes ≡ piece.now) }
{
    Ok(Bytes::from_vec(Vec::from_slice(alloc, piece)?))
}

/// The bytes of an action that reads so many, to be filled by it, with no more memory than they need.
pub fn blank_bytes(alloc: Global, count: u32) -> Result<Bytes, AllocError>
    ensures bytes { IfOk result (λ blank. blank.bytes ≡ replicate count 0) }
    ensures count { IfOk result (λ blank. length blank.bytes ≡ count) }
{
    Ok(Bytes::from_vec(vec![in alloc; 0u8; count as usize]?))
}
