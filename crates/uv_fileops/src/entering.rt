//! Enters: a call enters on a file that takes calls, and finds the memory that all its steps need.

ghost use Rattle.std.specs.Prelude.{◌≡◌, ◌<◌, None, Err};
ghost use Rattle.uv_num.specs.declared.limits.TheConstants.{FILES};
ghost use Rattle.uv_machine.specs.declared.entry.Entry.TheVariants as entry;
ghost use Rattle.uv_machine.specs.declared.entry.Answer.TheVariants as answer;
ghost use Rattle.uv_machine.specs.Histories.{IsLegal, state_of};
ghost use Rattle.uv_machine.specs.Outside.{MayAnswer, enter_refusal};
ghost use Rattle.uv_graph.specs.Notes.{NotesSpared};
ghost use Rattle.uv_graph.specs.Conditions.{IsClient, IsFree, HasSpare};
ghost use Rattle.uv_graph.specs.Owns.{own_of};
ghost use Rattle.uv_graph.specs.Turns.{EnterGives, refusal_without};

use std::alloc::{AllocError, Global};
use uv_graph::Graph;
use uv_machine::enter_refusal;
use uv_num::{Errno, FILES, Request};
use uv_pool::Deed;

/// Notes that a call is refused at its enter with this errno. Where there is no room for that, it answers ENOMEM.
fn note_refusal<D: Deed>(
    graph: &mut Graph<D>,
    client: u32,
    file: u32,
    request: Request,
    errno: Errno,
) -> Errno
    requires client { IsClient client }
    requires file { file < FILES }
    requires free { IsFree (own_of graph.old client) }
    requires may { MayAnswer (enter_refusal (state_of graph.old.history) file request) (answer.Refused errno) }
    ensures gives { EnterGives graph.old graph.new client file request (Err result) }
    ensures legal { IsLegal graph.new.history }
{
    if graph.refuse_enter(client, file, request, errno) {
        errno
    } else {
        Errno::NoMem
    }
}

/// Lets a call enter that nothing refuses, if there is memory.
fn take<D: Deed>(
    graph: &mut Graph<D>,
    client: u32,
    file: u32,
    request: Request,
) -> Result<(), Errno>
    requires client { IsClient client }
    requires file { file < FILES }
    requires free { IsFree (own_of graph.old client) }
    requires may { enter_refusal (state_of graph.old.history) file request ≡ None }
    ensures gives { EnterGives graph.old graph.new client file request result }
    ensures legal { IsLegal graph.new.history }
{
    match graph.enter(client, file, request) {
        Ok(()) => Ok(()),
        Err(AllocError) => Err(note_refusal(graph, client, file, request, Errno::NoMem)),
    }
}

/// Lets a client's call enter on a file (`uverbs_ioctl.c`, ib_uverbs_run_method), with
/// the memory of all its steps. EBADF: the file takes no calls. EIO: its device is unplugged, and the request needs it.
/// ENOMEM: there is no memory; where there is none for the refused entry either, and none is set aside for the client,
/// nothing is noted.
pub fn enter<D: Deed>(
    graph: &mut Graph<D>,
    _alloc: Global,
    client: u32,
    file: u32,
    request: &Request,
) -> Result<(), Errno>
    requires client { IsClient client }
    requires file { file < FILES }
    requires free { IsFree (own_of graph.old client) }
    ensures gives { EnterGives graph.old graph.new client file request.now result }
    ensures legal { IsLegal graph.new.history }
{
    match enter_refusal(graph, file, *request) {
        None => take(graph, client, file, *request),
        Some(errno) => Err(note_refusal(graph, client, file, *request, errno)),
    }
}

/// Refuses a client's call for which its caller has no memory, in room that is set aside for the client. It takes no
/// memory. The errno is the one that `enter` would answer, and else ENOMEM. This project's own.
pub fn refuse<D: Deed>(graph: &mut Graph<D>, client: u32, file: u32, request: &Request) -> Errno
    requires client { IsClient client }
    requires file { file < FILES }
    requires free { IsFree (own_of graph.old client) }
    requires spare { HasSpare (own_of graph.old client) }
    ensures errno { result ≡ refusal_without (enter_refusal (state_of graph.old.history) file request.now) }
    ensures notes { NotesSpared graph.old graph.new (entry.Enter client file request.now (answer.Refused result)) client }
    ensures legal { IsLegal graph.new.history }
{
    let errno = enter_refusal(graph, file, *request).unwrap_or(Errno::NoMem);
    graph.refuse_in_spare(client, file, *request, errno);
    errno
}
