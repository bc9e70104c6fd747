//! What an actor has of the graph for itself.

use uv_machine::InFlight;
use uv_num::{DEVICES, Identity, List};
use uv_pool::Life;

/// A deed that an actor has in its hands, by what it is for.
#[derive(Clone, Copy, Debug, PartialEq)]
pub struct Out {
    /// The object, as it was when it was made.
    pub identity: Identity,
    /// The object's cell, and the generation of that cell.
    pub index: u32,
    pub generation: u32,
}

/// An actor's own part: what no other actor's entry changes. It is what contracts see; no value of it is ever made.
#[derive(Drop)]
pub struct Own {
    pub actor: u32,
    /// Its call in flight, with what that holds.
    pub call: Option<InFlight>,
    /// The deed that its call has out, and the lives of that deed's cell.
    pub out: Option<Out>,
    pub out_lives: List<Life>,
    /// The file that it is tearing down.
    pub tear: Option<u32>,
    /// The deed that its teardown has out, and the lives of that deed's cell.
    pub kill: Option<Out>,
    pub kill_lives: List<Life>,
    /// The refused entries that its history has room for.
    pub spare: u32,
    /// The devices that it has unplugged; the driver alone unplugs any.
    pub pulled: [bool; DEVICES],
}
