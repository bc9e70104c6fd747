//! The limits. Each thing that is bounded anywhere is bounded by one of these.

/// The number that names no handle, no object and no cell.
pub const NONE: u32 = 4_294_967_295;

/// The kinds of objects: the rows of a table by kinds.
pub const KINDS: usize = 8;

/// The devices that a machine has, numbered from 0.
pub const DEVICES: usize = 2;

/// The clients, numbered 1 to `CLIENTS`.
pub const CLIENTS: u32 = 8;

/// The actors, numbered 1 to `ACTORS`: the clients, the driver and the end of the script.
pub const ACTORS: u32 = 10;

/// The places of a table by actors: an actor's number is its place, and place 0 is nobody's.
pub const ACTOR_PLACES: usize = 11;

/// The actor that unplugs devices.
pub const DRIVER: u32 = 9;

/// The actor that closes what is left when a script ends.
pub const ENDER: u32 = 10;

/// The threads that move packets.
pub const PACKET_WORKERS: u32 = 4;

/// The files, numbered from 0.
pub const FILES: usize = 16;

/// The handles of a file, numbered from 0.
pub const HANDLES: usize = 256;

/// The largest number that a command or a script can give for a handle: a handle has 32 bits (`__u32 *_handle` of
/// `rdma/ib_user_verbs.h`). Only those below `HANDLES` can name an object.
pub const MOST_HANDLE: u64 = 4_294_967_295;

/// The cells of a kind, over both devices, numbered from 0.
pub const CELLS: usize = 64;

/// The last generation of a cell. A cell that has reached it is never used again.
pub const MOST_GENERATION: u32 = 1_073_741_823;

/// The objects that stand at once: each has a handle of its own.
pub const MOST_OBJECTS: usize = 4_096;

/// The bytes of a memory region.
pub const REGION_BYTES: usize = 65_536;

/// The bytes of a work request, over its parts.
pub const WORK_BYTES: usize = 16_384;

/// The parts of a work request (its scatter and gather list).
pub const WORK_PARTS: usize = 4;

/// The regions that one packet action works on at once (this project's own).
pub const LENT_REGIONS: usize = 6;

/// The works of a send, receive or shared receive queue.
pub const QUEUE_DEPTH: usize = 128;

/// The completions of a completion queue.
pub const CQ_DEPTH: usize = 1_024;

/// The events of a completion channel.
pub const CHANNEL_EVENTS: usize = 1_024;

/// The ports of a device, numbered from 1.
pub const PORTS: u64 = 1;

/// The entries of a port's table of partition keys, numbered from 0.
pub const PKEYS: u64 = 1;

/// The Q_Keys, from 0: they have 32 bits.
pub const QKEYS: u64 = 1 << 32;

/// The packet sequence numbers, from 0: they have 24 bits.
pub const PSNS: u64 = 1 << 24;

/// The numbers of queue pairs, from 0: they have 24 bits.
pub const QP_NUMBERS: u64 = 1 << 24;

/// The number of the queue pair in cell 0; the others follow in the order of their cells. It is `RXE_MIN_QP_INDEX` of
/// `sw/rxe` (`rxe_param.h`): the numbers below are not given out.
pub const FIRST_QP_NUMBER: u32 = 16;

/// The pool index of the memory region in cell 0; the others follow in the order of their cells. It is
/// `RXE_MIN_MR_INDEX` of `sw/rxe` (`rxe_param.h`). A region's keys are made of its pool index.
pub const FIRST_MR_INDEX: u32 = 1;

/// The pool index of the memory window in cell 0, as `RXE_MIN_MW_INDEX` of `sw/rxe` (`rxe_param.h`): above the pool
/// indices of regions. The number is this project's own.
pub const FIRST_MW_INDEX: u32 = 4_097;

/// The variants of a key: its low 8 bits, below the pool index (`rxe_mr.c`, `rxe_get_next_key`).
pub const KEY_VARIANTS: u32 = 256;

/// The path MTUs, in bytes: those of `enum ib_mtu` of Linux (`rdma/ib_verbs.h`).
pub const MTUS: [u64; 5] = [256, 512, 1_024, 2_048, 4_096];

/// The last code of a time: the timeout of a sender, and the wait that a receiver asks for when it isn't ready
/// (`enum ib_rnr_timeout` of `rdma/ib_verbs.h`). They have 5 bits.
pub const MOST_TIME: u64 = 31;

/// The most resends that a queue pair counts: the counts have 3 bits.
pub const MOST_RETRIES: u64 = 7;

/// The reads that a queue pair may have outstanding, on either side.
pub const MOST_READS: u64 = 16;

/// The bytes of a packet's payload: the largest path MTU.
pub const PACKET_PAYLOAD: usize = 4_096;

/// The bytes that are always room enough for a packet: the largest payload, and 64 for its headers and its pad.
pub const PACKET_BYTES: usize = 4_160;

/// The frames on the link between the devices.
pub const LINK_FRAMES: usize = 1_024;

/// The bytes of a script.
pub const SCRIPT_BYTES: usize = 1_048_576;

/// The lines of a script.
pub const SCRIPT_LINES: usize = 20_000;

/// The characters of a name in a script.
pub const NAME_CHARACTERS: usize = 16;

/// The hexadecimal digits with which a script spells bytes, two for each byte.
pub const HEX_DIGITS: usize = 8_192;

/// The posts of a script.
pub const SCRIPT_POSTS: usize = 4_000;

// What one limit owes another.

const _: () = prove!(MOST_OBJECTS == FILES * HANDLES);

const _: () = prove!(PACKET_BYTES == PACKET_PAYLOAD + 64);

const _: () = prove!(DRIVER == CLIENTS + 1);

const _: () = prove!(ENDER == CLIENTS + 2);

const _: () = prove!(ACTORS == ENDER);

const _: () = prove!(ACTOR_PLACES == ACTORS as usize + 1);

const _: () = prove!(NONE == u32::MAX);

const _: () = prove!(MOST_HANDLE == NONE as u64);

const _: () = prove!(MOST_GENERATION == (1 << 30) - 1);

const _: () = prove!(FIRST_MR_INDEX as usize + CELLS <= FIRST_MW_INDEX as usize);

// Each limit once more, as it is meant: a definition that cites a constant follows the constant, so no other place would
// notice a change.

const _: () = prove!(KINDS == 8);

const _: () = prove!(DEVICES == 2);

const _: () = prove!(CLIENTS == 8);

const _: () = prove!(ACTORS == 10);

const _: () = prove!(PACKET_WORKERS == 4);

const _: () = prove!(FILES == 16);

const _: () = prove!(HANDLES == 256);

const _: () = prove!(CELLS == 64);

const _: () = prove!(MOST_GENERATION == 1_073_741_823);

const _: () = prove!(MOST_OBJECTS == 4_096);

const _: () = prove!(REGION_BYTES == 65_536);

const _: () = prove!(WORK_BYTES == 16_384);

const _: () = prove!(WORK_PARTS == 4);

const _: () = prove!(LENT_REGIONS == 6);

const _: () = prove!(QUEUE_DEPTH == 128);

const _: () = prove!(CQ_DEPTH == 1_024);

const _: () = prove!(CHANNEL_EVENTS == 1_024);

const _: () = prove!(PORTS == 1);

const _: () = prove!(PKEYS == 1);

const _: () = prove!(QKEYS == 4_294_967_296);

const _: () = prove!(PSNS == 16_777_216);

const _: () = prove!(QP_NUMBERS == 16_777_216);

const _: () = prove!(FIRST_QP_NUMBER == 16);

const _: () = prove!(FIRST_MR_INDEX == 1);

const _: () = prove!(FIRST_MW_INDEX == 4_097);

const _: () = prove!(KEY_VARIANTS == 256);

const _: () = prove!(MOST_TIME == 31);

const _: () = prove!(MOST_RETRIES == 7);

const _: () = prove!(MOST_READS == 16);

const _: () = prove!(PACKET_PAYLOAD == 4_096);

const _: () = prove!(PACKET_BYTES == 4_160);

const _: () = prove!(LINK_FRAMES == 1_024);

const _: () = prove!(SCRIPT_BYTES == 1_048_576);

const _: () = prove!(SCRIPT_LINES == 20_000);

const _: () = prove!(NAME_CHARACTERS == 16);

const _: () = prove!(HEX_DIGITS == 8_192);

const _: () = prove!(SCRIPT_POSTS == 4_000);

const _: () = prove!(MTUS[0] == 256);

const _: () = prove!(MTUS[1] == 512);

const _: () = prove!(MTUS[2] == 1024);

const _: () = prove!(MTUS[3] == 2048);

const _: () = prove!(MTUS[4] == 4096);
