//! What happens, one after the other, and what each comes to.

use super::plays::{Saw, acts, asks, goes_on, is_created, new_graph, unplugs};
use crate::{open, refuse};
use std::alloc::{AllocError, Global};
use uv_graph::Graph;
use uv_machine::{Answer, Readers};
use uv_num::{CLIENTS, DEVICES, Errno, FILES, QpState, Request};
use uv_pool::plain::PlainDeed;

#[derive(Clone, Copy)]
pub enum Scene {
    /// A client opens a file, or is refused.
    Opens {
        client: u32,
        file: u32,
        device: u32,
        refusal: Option<Errno>,
    },
    /// Client 1 asks for something on file 0, or is refused.
    Asks(Request, Option<Errno>),
    /// Client 1 asks without memory, and is refused in what is set aside.
    Lacks(Request, Errno),
    /// Client 1 makes an object of file 0.
    Creates(Request),
    /// Client 1's call makes its next step, which comes to this.
    Sees(Saw),
    /// Client 1 has no call that acts.
    Rests,
    /// Client 1's act is made with this state, where that may be.
    Acts(Option<QpState>, Option<Answer>),
    /// Device 0 is pulled.
    Unplugs,
    /// So much is set aside for a client.
    Spares(u32, u32),
    /// Another object uses this one.
    IsUsed(u32),
}

fn opens(
    graph: &mut Graph<PlainDeed>,
    alloc: Global,
    client: u32,
    file: u32,
    device: u32,
) -> Option<Result<(), Errno>> {
    if client == 0 || client > CLIENTS {
        return None;
    }
    if file as usize >= FILES || device as usize >= DEVICES {
        return None;
    }
    Some(open(graph, alloc, client, file, device))
}

fn lacks(graph: &mut Graph<PlainDeed>, request: Request) -> Option<Errno> {
    if graph.call_of(1).is_some() || graph.spare(1) == 0 {
        return None;
    }
    Some(refuse(graph, 1, 0, &request))
}

/// What an open or an enter comes to.
fn told(refusal: Option<Errno>) -> Result<(), Errno> {
    match refusal {
        None => Ok(()),
        Some(errno) => Err(errno),
    }
}

fn happens(graph: &mut Graph<PlainDeed>, alloc: Global, scene: Scene) -> bool {
    match scene {
        Scene::Opens {
            client,
            file,
            device,
            refusal,
        } => opens(graph, alloc, client, file, device) == Some(told(refusal)),
        Scene::Asks(request, refusal) => asks(graph, alloc, request) == Some(told(refusal)),
        Scene::Lacks(request, errno) => lacks(graph, request) == Some(errno),
        Scene::Creates(request) => is_created(graph, alloc, request),
        Scene::Sees(saw) => goes_on(graph) == Some(saw),
        Scene::Rests => goes_on(graph).is_none(),
        Scene::Acts(found, answer) => acts(graph, found) == answer,
        Scene::Unplugs => unplugs(graph),
        Scene::Spares(client, spare) => graph.spare(client) == spare,
        Scene::IsUsed(object) => graph.has_users(object),
    }
}

/// The place of the first scene that doesn't happen as it is written, on a new graph.
pub fn first_other(alloc: Global, scenes: &[Scene]) -> Result<Option<usize>, AllocError> {
    let mut graph = new_graph(alloc)?;
    for (place, scene) in scenes.iter().enumerate() {
        if !happens(&mut graph, alloc, *scene) {
            return Ok(Some(place));
        }
    }
    Ok(None)
}
