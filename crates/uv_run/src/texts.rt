//! The texts of runs that write no report.

ghost use Rattle.std.specs.Prelude.{◌≡◌, IfOk};
ghost use Rattle.uv_run.specs.Texts.{fault_line, usage_line, too_long_line};

use std::alloc::{AllocError, Global};
use uv_num::Bytes;

/// What is told of bytes that are no script.
pub fn fault_text(alloc: Global, line: u32) -> Result<Bytes, AllocError>
    ensures { IfOk result (λ b. b.bytes ≡ fault_line line) }
{
    let text = format!(in alloc; "script fault at line {line}\n")?;
    Ok(Bytes::from_vec(text.into_bytes()))
}

/// What is told of words that are none of the forms.
pub fn usage_text() -> &'static [u8]
    ensures { result.now ≡ usage_line }
{
    b"usage: verbsrun steps | threads W | gen SEED COUNT\n"
}

/// What is told of more bytes than a script has.
pub fn too_long_text() -> &'static [u8]
    ensures { result.now ≡ too_long_line }
{
    b"script too long\n"
}
