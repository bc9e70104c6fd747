//! The rules that refuse bytes, by name. Each has an errno, a key that tells it from every other, and the place whose rule it is.

ghost use Rattle.std.specs.Prelude.{◌≡◌};
ghost use Rattle.uv_attr.specs.RuleNames.{bytes_fault, bytes_errno, bytes_key, bytes_source};

use crate::fault::CallFault;
use uv_num::Errno;

/// A rule of command bytes. Bytes that don't meet it are no call, and are refused with its errno. The rules are tried in the
/// order in which they stand here.
#[derive(Clone, Copy, Debug, PartialEq, Eq)]
pub enum BytesRule {
    /// A command has the bytes of a header at least.
    Header,
    /// The length that a command states is that of a header with so many attributes.
    Length,
    /// The length that a command states is that of its bytes.
    Count,
    /// The reserved fields of a header are 0.
    Reserved,
    /// A command has 32 attributes at most.
    Attrs,
    /// An attribute has no flags but MANDATORY and VALID_OUTPUT.
    Flags,
    /// The attr_data of an attribute is 0.
    Data,
    /// An attribute stands once.
    Twice,
}

/// All rules of bytes, each once.
pub const BYTES_RULES: [BytesRule; 8] = [
    BytesRule::Header,
    BytesRule::Length,
    BytesRule::Count,
    BytesRule::Reserved,
    BytesRule::Attrs,
    BytesRule::Flags,
    BytesRule::Data,
    BytesRule::Twice,
];

impl BytesRule {
    /// What `decode_call` refuses the bytes with.
    pub fn fault(self) -> CallFault
        ensures { result ≡ bytes_fault self }
    {
        match self {
            BytesRule::Header
            | BytesRule::Length
            | BytesRule::Count
            | BytesRule::Attrs
            | BytesRule::Flags
            | BytesRule::Data
            | BytesRule::Twice => CallFault::Inval,
            BytesRule::Reserved => CallFault::ProtoNoSupport,
        }
    }

    /// The errno that bytes are refused with.
    pub fn errno(self) -> Errno
        ensures { result ≡ bytes_errno self }
    {
        match self {
            BytesRule::Header
            | BytesRule::Length
            | BytesRule::Count
            | BytesRule::Attrs
            | BytesRule::Flags
            | BytesRule::Data
            | BytesRule::Twice => Errno::Inval,
            BytesRule::Reserved => Errno::ProtoNoSupport,
        }
    }

    /// Its key: lower-case words and hyphens, `bytes` first.
    pub fn key(self) -> &'static str
        ensures { result.now ≡ bytes_key self }
    {
        match self {
            BytesRule::Header => "bytes-header",
            BytesRule::Length => "bytes-length",
            BytesRule::Count => "bytes-count",
            BytesRule::Reserved => "bytes-reserved",
            BytesRule::Attrs => "bytes-attrs",
            BytesRule::Flags => "bytes-flags",
            BytesRule::Data => "bytes-data",
            BytesRule::Twice => "bytes-twice",
        }
    }

    /// Whose rule it is: `own` for one of this project, else a file and a function of Linux, in `drivers/infiniband/core`.
    pub fn source(self) -> &'static str
        ensures { result.now ≡ bytes_source self }
    {
        match self {
            BytesRule::Header => "own",
            BytesRule::Length => "uverbs_ioctl.c, ib_uverbs_ioctl",
            BytesRule::Count => "own",
            BytesRule::Reserved => "uverbs_ioctl.c, ib_uverbs_ioctl",
            BytesRule::Attrs => "own",
            BytesRule::Flags => "own",
            BytesRule::Data => "uverbs_ioctl.c, uverbs_process_attr",
            BytesRule::Twice => "uverbs_ioctl.c, uverbs_set_attr",
        }
    }
}
