//! The two directions are inverse to each other.

ghost use Rattle.std.specs.Prelude.{◌≡◌, ◌<◌, ℕ, List, None, slice_index};
ghost use Rattle.uv_attr.specs.declared.call.Call.{Call};
ghost use Rattle.uv_attr.specs.Command.{IsCommand, CallFits};
ghost use Rattle.uv_attr.specs.Reading.{call_in};
ghost use Rattle.uv_attr.specs.Refusal.{bytes_refusal};

/// Bytes that are not refused are the bytes of the call that is read from them.
pub fn accepted_bytes_are_a_command()
    ensures { (bytes : List ℕ) → ((i : ℕ) → slice_index bytes i < 256) → bytes_refusal bytes ≡ None → IsCommand bytes (call_in bytes) }
{}

/// The bytes of a call are not refused, and the call is read from them again.
pub fn command_is_read_back()
    ensures accepted { (bytes : List ℕ) (call : Call) → CallFits call → IsCommand bytes call → bytes_refusal bytes ≡ None }
    ensures read { (bytes : List ℕ) (call : Call) → CallFits call → IsCommand bytes call → call_in bytes ≡ call }
{}

/// No bytes are the bytes of two calls.
pub fn command_has_one_reading()
    ensures { (bytes : List ℕ) (a b : Call) → CallFits a → CallFits b → IsCommand bytes a → IsCommand bytes b → a ≡ b }
{}
