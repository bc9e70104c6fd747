//! Access rights: the bits that say what may be done with a region, through a window, or by the other side of a
//! queue pair. Their numbers are those of `enum ib_access_flags` of Linux (`rdma/ib_verbs.h`).

/// Local writes, as receives and the answers of reads make them (`IB_ACCESS_LOCAL_WRITE`).
pub const ACCESS_LOCAL_WRITE: u64 = 1;

/// Writes by the other side (`IB_ACCESS_REMOTE_WRITE`).
pub const ACCESS_REMOTE_WRITE: u64 = 2;

/// Reads by the other side (`IB_ACCESS_REMOTE_READ`).
pub const ACCESS_REMOTE_READ: u64 = 4;

/// Atomic operations by the other side (`IB_ACCESS_REMOTE_ATOMIC`). Kept, without effect.
pub const ACCESS_REMOTE_ATOMIC: u64 = 8;

/// Binding windows to a region (`IB_ACCESS_MW_BIND`).
pub const ACCESS_MW_BIND: u64 = 16;

/// The rights that a queue pair can give: all but the binding of windows. The right to local writes is kept, without
/// effect.
pub const QP_ACCESS: u64 = ACCESS_LOCAL_WRITE
    | ACCESS_REMOTE_WRITE
    | ACCESS_REMOTE_READ
    | ACCESS_REMOTE_ATOMIC;

/// The rights that a region can have: all.
pub const REGION_ACCESS: u64 = QP_ACCESS | ACCESS_MW_BIND;

/// The rights that a window can have: reads and writes by the other side.
pub const WINDOW_ACCESS: u64 = ACCESS_REMOTE_WRITE | ACCESS_REMOTE_READ;

const _: () = prove!(ACCESS_LOCAL_WRITE == 1 << 0);

const _: () = prove!(ACCESS_REMOTE_WRITE == 1 << 1);

const _: () = prove!(ACCESS_REMOTE_READ == 1 << 2);

const _: () = prove!(ACCESS_REMOTE_ATOMIC == 1 << 3);

const _: () = prove!(ACCESS_MW_BIND == 1 << 4);

const _: () = prove!(QP_ACCESS == 15);

const _: () = prove!(REGION_ACCESS == 31);

const _: () = prove!(WINDOW_ACCESS == 6);
