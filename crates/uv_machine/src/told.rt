//! What a step finds before it is made.

use uv_num::Errno;

/// The object that a step names, or `NONE`, and the refusal that it meets, if any.
#[derive(Clone, Copy, Debug, PartialEq)]
pub struct Told {
    pub object: u32,
    pub refusal: Option<Errno>,
}
