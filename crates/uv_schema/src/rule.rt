//! The rules that refuse calls and numbers, by name. Each has an errno, a key that tells it from every other, and the place whose
//! rule it is.

ghost use Rattle.std.specs.Prelude.{◌≡◌};
ghost use Rattle.uv_schema.specs.RuleNames.{call_errno, call_key, call_source, command_errno, command_key, command_source};

use uv_attr::BytesRule;
use uv_num::Errno;

/// A rule of the method table or of the ranges. A call or a request that doesn't meet it is refused with its errno. The rules
/// that a call meets are tried in the order in which they stand here.
#[derive(Clone, Copy, Debug, PartialEq, Eq)]
pub enum CallRule {
    /// The object and the method are a row of the method table.
    MethodUnknown,
    /// A mandatory attribute is one that the method has.
    AttrUnknown,
    /// A handle that the method has comes in 8 bytes.
    AttrHandle,
    /// Another number that the method has comes in 8 bytes.
    AttrLength,
    /// Each attribute that the method needs is given.
    AttrMissing,
    /// A handle has 32 bits.
    RangeHandle,
    /// A completion queue holds 1 to 1,024 completions.
    RangeCq,
    /// A queue pair is of service 2, which is RC, or 4, which is UD.
    RangeService,
    /// 1 to 128 sends are posted at once.
    RangeSends,
    /// 1 to 128 receives are posted at once.
    RangeReceives,
    /// A queue pair is told to go to a state that there is.
    RangeState,
    /// Each attribute of a modify is in its range.
    RangeModify,
    /// A shared receive queue holds 1 to 128 receives.
    RangeSrq,
    /// An address handle leads to device 0 or 1.
    RangeDevice,
    /// A region has 1 to 65,536 bytes.
    RangeLength,
    /// A region has no rights but the five that there are.
    RangeRights,
    /// A region that the other side may write or change lets its owner write.
    RangeWrite,
    /// A window has no rights but those to read and to write from the other side.
    RangeWindow,
}

/// All rules of calls and requests, each once.
pub const CALL_RULES: [CallRule; 18] = [
    CallRule::MethodUnknown,
    CallRule::AttrUnknown,
    CallRule::AttrHandle,
    CallRule::AttrLength,
    CallRule::AttrMissing,
    CallRule::RangeHandle,
    CallRule::RangeCq,
    CallRule::RangeService,
    CallRule::RangeSends,
    CallRule::RangeReceives,
    CallRule::RangeState,
    CallRule::RangeModify,
    CallRule::RangeSrq,
    CallRule::RangeDevice,
    CallRule::RangeLength,
    CallRule::RangeRights,
    CallRule::RangeWrite,
    CallRule::RangeWindow,
];

impl CallRule {
    /// The errno that a call or a request is refused with.
    pub fn errno(self) -> Errno
        ensures { result ≡ call_errno self }
    {
        match self {
            CallRule::MethodUnknown | CallRule::AttrUnknown => Errno::ProtoNoSupport,
            CallRule::AttrHandle
            | CallRule::AttrLength
            | CallRule::AttrMissing
            | CallRule::RangeHandle
            | CallRule::RangeCq
            | CallRule::RangeService
            | CallRule::RangeSends
            | CallRule::RangeReceives
            | CallRule::RangeState
            | CallRule::RangeModify
            | CallRule::RangeSrq
            | CallRule::RangeDevice
            | CallRule::RangeLength
            | CallRule::RangeRights
            | CallRule::RangeWrite
            | CallRule::RangeWindow => Errno::Inval,
        }
    }

    /// Its key: lower-case words and hyphens, what is looked at first.
    pub fn key(self) -> &'static str
        ensures { result.now ≡ call_key self }
    {
        match self {
            CallRule::MethodUnknown => "method-unknown",
            CallRule::AttrUnknown => "attr-unknown",
            CallRule::AttrHandle => "attr-handle",
            CallRule::AttrLength => "attr-length",
            CallRule::AttrMissing => "attr-missing",
            CallRule::RangeHandle => "range-handle",
            CallRule::RangeCq => "range-cq",
            CallRule::RangeService => "range-service",
            CallRule::RangeSends => "range-sends",
            CallRule::RangeReceives => "range-receives",
            CallRule::RangeState => "range-state",
            CallRule::RangeModify => "range-modify",
            CallRule::RangeSrq => "range-srq",
            CallRule::RangeDevice => "range-device",
            CallRule::RangeLength => "range-length",
            CallRule::RangeRights => "range-rights",
            CallRule::RangeWrite => "range-write",
            CallRule::RangeWindow => "range-window",
        }
    }

    /// Whose rule it is: `own` for one of this project, else a file and a function of Linux. A file that names no folder is of
    /// `drivers/infiniband/core`, `sw` is a folder of `drivers/infiniband`, and `rdma` one of `include`. Of a range the number
    /// that bounds it is this project's own.
    pub fn source(self) -> &'static str
        ensures { result.now ≡ call_source self }
    {
        match self {
            CallRule::MethodUnknown => "uverbs_ioctl.c, ib_uverbs_cmd_verbs",
            CallRule::AttrUnknown => "uverbs_ioctl.c, uverbs_set_attr",
            CallRule::AttrHandle => "own",
            CallRule::AttrLength => "uverbs_ioctl.c, uverbs_process_attr",
            CallRule::AttrMissing => "uverbs_ioctl.c, ib_uverbs_run_method",
            CallRule::RangeHandle => "own",
            CallRule::RangeCq => "sw/rxe/rxe_cq.c, rxe_cq_chk_attr",
            CallRule::RangeService => "own",
            CallRule::RangeSends => "sw/rxe/rxe_qp.c, rxe_qp_chk_cap",
            CallRule::RangeReceives => "sw/rxe/rxe_qp.c, rxe_qp_chk_cap",
            CallRule::RangeState => "own",
            CallRule::RangeModify => "sw/rxe/rxe_qp.c, rxe_qp_chk_attr",
            CallRule::RangeSrq => "sw/rxe/rxe_srq.c, rxe_srq_chk_init",
            CallRule::RangeDevice => "own",
            CallRule::RangeLength => "umem.c, ib_umem_get",
            CallRule::RangeRights => "rdma/ib_verbs.h, ib_check_mr_access",
            CallRule::RangeWrite => "rdma/ib_verbs.h, ib_check_mr_access",
            CallRule::RangeWindow => "own",
        }
    }
}

/// A rule by which command bytes are refused: as bytes, or as the call that they are.
#[derive(Clone, Copy, Debug, PartialEq, Eq)]
pub enum CommandRule {
    /// The bytes are no call.
    Bytes(BytesRule),
    /// The call is no request, or one with a number out of its range.
    Call(CallRule),
}

impl CommandRule {
    /// The errno that the bytes are refused with.
    pub fn errno(self) -> Errno
        ensures { result ≡ command_errno self }
    {
        match self {
            CommandRule::Bytes(rule) => rule.errno(),
            CommandRule::Call(rule) => rule.errno(),
        }
    }

    /// The key of the rule.
    pub fn key(self) -> &'static str
        ensures { result.now ≡ command_key self }
    {
        match self {
            CommandRule::Bytes(rule) => rule.key(),
            CommandRule::Call(rule) => rule.key(),
        }
    }

    /// Whose rule it is.
    pub fn source(self) -> &'static str
        ensures { result.now ≡ command_source self }
    {
        match self {
            CommandRule::Bytes(rule) => rule.source(),
            CommandRule::Call(rule) => rule.source(),
        }
    }
}
