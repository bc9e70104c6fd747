//! The rules that refuse, by name. Each has an errno, a key that tells it from every other, and the place whose rule it is.

ghost use Rattle.std.specs.Prelude.{◌≡◌};
ghost use Rattle.uv_machine.specs.RuleNames.{errno_of, rule_key, rule_source};

use uv_num::Errno;

/// A rule of the machine that refuses an open, an enter or a step of a call. What it asks for stands beside its name; a call
/// that doesn't meet it is refused with its errno. The rules of one step are tried in the order in which they stand here.
#[derive(Clone, Copy, Debug, PartialEq, Eq)]
pub enum Rule {
    /// A file is opened once.
    OpenTwice,
    /// A file is opened on a device that is plugged in.
    OpenUnplugged,
    /// There was no memory for an open that no rule refuses.
    OpenMemory,
    /// Nothing is called on a file that was never opened.
    EnterUnopened,
    /// Nothing enters on a file that is being torn down.
    EnterTorn,
    /// Nothing is called on a file that is closed.
    EnterClosed,
    /// A create, and an act but for the taking of an event, enters where the file's device is plugged in.
    EnterUnplugged,
    /// There was no memory for a call that no rule refuses at its enter.
    EnterMemory,
    /// A file has 256 numbers, and a create takes one that is free.
    ReserveFull,
    /// What a call looks at stands under its number.
    LookMissing,
    /// What a call looks at is of the kind that is asked for.
    LookKind,
    /// A call looks at objects while the file's device is plugged in.
    LookUnplugged,
    /// What a call looks at no call holds exclusively.
    LookHeld,
    /// There are 2^32 - 1 ids, each given once.
    MakeIds,
    /// A new object gets a cell of its kind that is home.
    MakeCells,
    /// What is destroyed stands under its number.
    LockMissing,
    /// What is destroyed is of the kind that is asked for.
    LockKind,
    /// What is destroyed no other call holds, exclusively or not.
    LockHeld,
    /// What is destroyed nothing uses.
    CheckUsed,
    /// A queue pair is told to go to a state that there is.
    ModifyState,
    /// A queue pair moves by the table: there is such a move, with all attributes that it needs and none that it may not have.
    ModifyTable,
    /// A bind has a window and a region. No legal history leads to one that hasn't.
    BindMissing,
    /// A window is bound to a region of its own domain.
    BindDomain,
    /// A window is bound to a region that allows binding.
    BindRight,
    /// A window gives remote writes where its region has local ones.
    BindWrite,
    /// A window is bound to one byte at least.
    BindEmpty,
    /// The range of a window is within its region.
    BindRange,
    /// A bind without a region gives no range and no right.
    UnbindRange,
    /// A dissociated file has one event, and no other comes.
    EventGone,
    /// An event is taken that waits.
    EventNone,
}

/// All rules, each once.
pub const RULES: [Rule; 30] = [
    Rule::OpenTwice,
    Rule::OpenUnplugged,
    Rule::OpenMemory,
    Rule::EnterUnopened,
    Rule::EnterTorn,
    Rule::EnterClosed,
    Rule::EnterUnplugged,
    Rule::EnterMemory,
    Rule::ReserveFull,
    Rule::LookMissing,
    Rule::LookKind,
    Rule::LookUnplugged,
    Rule::LookHeld,
    Rule::MakeIds,
    Rule::MakeCells,
    Rule::LockMissing,
    Rule::LockKind,
    Rule::LockHeld,
    Rule::CheckUsed,
    Rule::ModifyState,
    Rule::ModifyTable,
    Rule::BindMissing,
    Rule::BindDomain,
    Rule::BindRight,
    Rule::BindWrite,
    Rule::BindEmpty,
    Rule::BindRange,
    Rule::UnbindRange,
    Rule::EventGone,
    Rule::EventNone,
];

impl Rule {
    /// The errno that a call is refused with.
    pub fn errno(self) -> Errno
        ensures { result ≡ errno_of self }
    {
        match self {
            Rule::OpenTwice => Errno::Inval,
            Rule::OpenUnplugged => Errno::Io,
            Rule::OpenMemory => Errno::NoMem,
            Rule::EnterUnopened => Errno::BadF,
            Rule::EnterTorn => Errno::BadF,
            Rule::EnterClosed => Errno::BadF,
            Rule::EnterUnplugged => Errno::Io,
            Rule::EnterMemory => Errno::NoMem,
            Rule::ReserveFull => Errno::NoSpc,
            Rule::LookMissing => Errno::NoEnt,
            Rule::LookKind => Errno::Inval,
            Rule::LookUnplugged => Errno::Io,
            Rule::LookHeld => Errno::Busy,
            Rule::MakeIds => Errno::NoSpc,
            Rule::MakeCells => Errno::NoSpc,
            Rule::LockMissing => Errno::NoEnt,
            Rule::LockKind => Errno::Inval,
            Rule::LockHeld => Errno::Busy,
            Rule::CheckUsed => Errno::Busy,
            Rule::ModifyState => Errno::Inval,
            Rule::ModifyTable => Errno::Inval,
            Rule::BindMissing => Errno::Inval,
            Rule::BindDomain => Errno::Inval,
            Rule::BindRight => Errno::Inval,
            Rule::BindWrite => Errno::Inval,
            Rule::BindEmpty => Errno::Inval,
            Rule::BindRange => Errno::Inval,
            Rule::UnbindRange => Errno::Inval,
            Rule::EventGone => Errno::Io,
            Rule::EventNone => Errno::Again,
        }
    }

    /// Its key: lower-case words and hyphens, the step first.
    pub fn key(self) -> &'static str
        ensures { result.now ≡ rule_key self }
    {
        match self {
            Rule::OpenTwice => "open-twice",
            Rule::OpenUnplugged => "open-unplugged",
            Rule::OpenMemory => "open-memory",
            Rule::EnterUnopened => "enter-unopened",
            Rule::EnterTorn => "enter-torn",
            Rule::EnterClosed => "enter-closed",
            Rule::EnterUnplugged => "enter-unplugged",
            Rule::EnterMemory => "enter-memory",
            Rule::ReserveFull => "reserve-full",
            Rule::LookMissing => "look-missing",
            Rule::LookKind => "look-kind",
            Rule::LookUnplugged => "look-unplugged",
            Rule::LookHeld => "look-held",
            Rule::MakeIds => "make-ids",
            Rule::MakeCells => "make-cells",
            Rule::LockMissing => "lock-missing",
            Rule::LockKind => "lock-kind",
            Rule::LockHeld => "lock-held",
            Rule::CheckUsed => "check-used",
            Rule::ModifyState => "modify-state",
            Rule::ModifyTable => "modify-table",
            Rule::BindMissing => "bind-missing",
            Rule::BindDomain => "bind-domain",
            Rule::BindRight => "bind-right",
            Rule::BindWrite => "bind-write",
            Rule::BindEmpty => "bind-empty",
            Rule::BindRange => "bind-range",
            Rule::UnbindRange => "unbind-range",
            Rule::EventGone => "event-gone",
            Rule::EventNone => "event-none",
        }
    }

    /// Whose rule it is: `own` for one of this project, else files and functions of Linux. A file that names no folder is of
    /// `drivers/infiniband/core`, and `sw` is a folder of `drivers/infiniband`.
    pub fn source(self) -> &'static str
        ensures { result.now ≡ rule_source self }
    {
        match self {
            Rule::OpenTwice => "uverbs_cmd.c, ib_init_ucontext",
            Rule::OpenUnplugged => "uverbs_main.c, ib_uverbs_open",
            Rule::OpenMemory => "uverbs_main.c, ib_uverbs_open",
            Rule::EnterUnopened => "own",
            Rule::EnterTorn => "own",
            Rule::EnterClosed => "own",
            Rule::EnterUnplugged => "uverbs_main.c, ib_uverbs_get_ucontext_file",
            Rule::EnterMemory => "rdma_core.c, alloc_uobj",
            Rule::ReserveFull => "own",
            Rule::LookMissing => "rdma_core.c, lookup_get_idr_uobject",
            Rule::LookKind => "rdma_core.c, rdma_lookup_get_uobject",
            Rule::LookUnplugged => "rdma_core.c, rdma_lookup_get_uobject",
            Rule::LookHeld => "rdma_core.c, uverbs_try_lock_object",
            Rule::MakeIds => "own",
            Rule::MakeCells => "own",
            Rule::LockMissing => "rdma_core.c, lookup_get_idr_uobject",
            Rule::LockKind => "rdma_core.c, rdma_lookup_get_uobject",
            Rule::LockHeld => "rdma_core.c, uverbs_try_lock_object",
            Rule::CheckUsed =>
                "uverbs_std_types.c, uverbs_free_pd; verbs.c, ib_destroy_cq_user, ib_destroy_srq_user",
            Rule::ModifyState => "uverbs_cmd.c, modify_qp",
            Rule::ModifyTable => "verbs.c, ib_modify_qp_is_ok",
            Rule::BindMissing => "own",
            Rule::BindDomain => "own",
            Rule::BindRight => "sw/rxe/rxe_mw.c, rxe_check_bind_mw",
            Rule::BindWrite => "sw/rxe/rxe_mw.c, rxe_check_bind_mw",
            Rule::BindEmpty => "own",
            Rule::BindRange => "sw/rxe/rxe_mw.c, rxe_check_bind_mw",
            Rule::UnbindRange => "own",
            Rule::EventGone => "own",
            Rule::EventNone => "uverbs_main.c, ib_uverbs_event_read",
        }
    }
}
