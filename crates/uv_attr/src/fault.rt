//! Why bytes are no call.

use thiserror::Error;

/// Why bytes are not decoded.
#[derive(Clone, Copy, Debug, PartialEq, Eq, Error)]
pub enum CallFault {
    /// EINVAL: a length, the number of attributes or an attribute is wrong.
    #[error("the command's length or an attribute is wrong (EINVAL)")]
    Inval,
    /// EPROTONOSUPPORT: a reserved field of the header is not 0.
    #[error("a reserved field of the command is used (EPROTONOSUPPORT)")]
    ProtoNoSupport,
    /// ENOMEM: memory ran out. The bytes are those of a call.
    #[error("memory ran out (ENOMEM)")]
    NoMemory,
}
