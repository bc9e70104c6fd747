//! What every layer speaks: the kinds of objects and their ranks, the errnos, the states of a queue pair and its
//! moves between them, requests with their handles and the attributes of a modify, access rights, the limits, and
//! the lists that the other crates keep their values in.
//!
//! Nothing here has state, and what is decided is read off a table. The layers above read the tables by `number`,
//! `rank`, `role` and `modify`, cite the ranges of requests in `specs/Ranges.antt`, and see `List` and `Room` as
//! plain lists, so no contract there speaks of a buffer.
#![tactic(auto)]

mod access;
mod asks;
mod attrs;
mod bytes;
mod errno;
mod identity;
mod ids;
mod kind;
mod limits;
mod list;
mod place;
mod qp;
mod request;
mod room;
mod stock;
mod transport;

pub use access::{
    ACCESS_LOCAL_WRITE, ACCESS_MW_BIND, ACCESS_REMOTE_ATOMIC, ACCESS_REMOTE_READ,
    ACCESS_REMOTE_WRITE, QP_ACCESS, REGION_ACCESS, WINDOW_ACCESS,
};
pub use asks::Asks;
pub use attrs::{QP_ATTRS, QpAttr, QpAttrs};
pub use bytes::Bytes;
pub use errno::Errno;
pub use identity::Identity;
pub use ids::Ids;
pub use kind::Kind;
pub use limits::{
    ACTOR_PLACES, ACTORS, CELLS, CHANNEL_EVENTS, CLIENTS, CQ_DEPTH, DEVICES, DRIVER, ENDER, FILES,
    FIRST_MR_INDEX, FIRST_MW_INDEX, FIRST_QP_NUMBER, HANDLES, HEX_DIGITS, KEY_VARIANTS, KINDS,
    LENT_REGIONS, LINK_FRAMES, MOST_GENERATION, MOST_HANDLE, MOST_OBJECTS, MOST_READS,
    MOST_RETRIES, MOST_TIME, MTUS, NAME_CHARACTERS, NONE, PACKET_BYTES, PACKET_PAYLOAD,
    PACKET_WORKERS, PKEYS, PORTS, PSNS, QKEYS, QP_NUMBERS, QUEUE_DEPTH, REGION_BYTES, SCRIPT_BYTES,
    SCRIPT_LINES, SCRIPT_POSTS, WORK_BYTES, WORK_PARTS,
};
pub use list::List;
pub use place::{Changes, Put, change_at};
pub use qp::{QpState, Service};
pub use request::{Act, Ask, Request, Role};
pub use room::Room;
pub use stock::Stock;
pub use transport::modify;
