//! The numbers of a method's attributes, `attr_id` of Linux's `struct ib_uverbs_attr`. Each method counts its own from 1,
//! in the order of its arguments. The numbers are this project's own.

/// The object that is destroyed, modified, queried or bound.
pub const TARGET: u16 = 1;

/// The domain that a create uses.
pub const DOMAIN: u16 = 1;

/// How many completions a queue holds, as it is made.
pub const CQ_DEPTH: u16 = 1;

/// The channel that a completion queue tells, as it is made.
pub const CQ_CHANNEL: u16 = 2;

/// The queue for completions of sends, as a queue pair is made.
pub const QP_SEND_CQ: u16 = 2;

/// The queue for completions of receives, as a queue pair is made.
pub const QP_RECV_CQ: u16 = 3;

/// The shared receive queue, as a queue pair is made.
pub const QP_SRQ: u16 = 4;

/// The service, as a queue pair is made.
pub const QP_SERVICE: u16 = 5;

/// How many sends are posted at once, as a queue pair is made.
pub const QP_SEND_DEPTH: u16 = 6;

/// How many receives are posted at once, as a queue pair is made.
pub const QP_RECV_DEPTH: u16 = 7;

/// The state to which a queue pair is taken.
pub const MODIFY_TO: u16 = 2;

/// A modify's remote rights.
pub const MODIFY_ACCESS: u16 = 3;

/// A modify's index of a partition key.
pub const MODIFY_PKEY: u16 = 4;

/// A modify's port.
pub const MODIFY_PORT: u16 = 5;

/// A modify's Q_Key.
pub const MODIFY_QKEY: u16 = 6;

/// A modify's device of the other side.
pub const MODIFY_DEV: u16 = 7;

/// A modify's path MTU.
pub const MODIFY_MTU: u16 = 8;

/// A modify's timeout until a resend.
pub const MODIFY_TIMEOUT: u16 = 9;

/// A modify's count of resends without an answer.
pub const MODIFY_RETRY: u16 = 10;

/// A modify's count of resends where the other side isn't ready.
pub const MODIFY_RNR: u16 = 11;

/// A modify's first PSN that comes in.
pub const MODIFY_RQPSN: u16 = 12;

/// A modify's outstanding reads as requester.
pub const MODIFY_MRA: u16 = 13;

/// A modify's wait for a receive.
pub const MODIFY_RNRTIMER: u16 = 14;

/// A modify's first PSN that goes out.
pub const MODIFY_SQPSN: u16 = 15;

/// A modify's outstanding reads as responder.
pub const MODIFY_MDRA: u16 = 16;

/// A modify's number of the other side's queue pair.
pub const MODIFY_DQPN: u16 = 17;

/// How many receives are posted at once, as a shared receive queue is made.
pub const SRQ_DEPTH: u16 = 2;

/// The device that an address handle leads to, as it is made.
pub const AH_DEVICE: u16 = 2;

/// A region's bytes, as it is registered.
pub const MR_LENGTH: u16 = 2;

/// A region's rights, as it is registered.
pub const MR_ACCESS: u16 = 3;

/// The region that a window is bound to.
pub const BIND_MR: u16 = 2;

/// Where in the region a window's range begins.
pub const BIND_OFFSET: u16 = 3;

/// The bytes of a window's range.
pub const BIND_LENGTH: u16 = 4;

/// A window's rights.
pub const BIND_ACCESS: u16 = 5;

/// The bytes of an attribute's value.
pub const VALUE_BYTES: u16 = 8;

const _: () = prove!(VALUE_BYTES == 8);
