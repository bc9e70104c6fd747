//! Opens: a file is opened once, on a device that is plugged in.

ghost use Rattle.std.specs.Prelude.{◌≡◌, ◌<◌, None, Err};
ghost use Rattle.uv_num.specs.declared.limits.TheConstants.{FILES, DEVICES};
ghost use Rattle.uv_machine.specs.declared.entry.Answer.TheVariants as answer;
ghost use Rattle.uv_machine.specs.Histories.{IsLegal, state_of};
ghost use Rattle.uv_machine.specs.Outside.{MayAnswer, open_refusal};
ghost use Rattle.uv_graph.specs.Conditions.{IsClient};
ghost use Rattle.uv_graph.specs.Turns.{OpenGives};

use std::alloc::{AllocError, Global};
use uv_graph::Graph;
use uv_machine::open_refusal;
use uv_num::{DEVICES, Errno, FILES};
use uv_pool::Deed;

/// Notes that an open is refused with this errno. Where there is no room for that, it answers ENOMEM.
fn note_refusal<D: Deed>(
    graph: &mut Graph<D>,
    client: u32,
    file: u32,
    device: u32,
    errno: Errno,
) -> Errno
    requires client { IsClient client }
    requires file { file < FILES }
    requires device { device < DEVICES }
    requires may { MayAnswer (open_refusal (state_of graph.old.history) file device) (answer.Refused errno) }
    ensures gives { OpenGives graph.old graph.new client file device (Err result) }
    ensures legal { IsLegal graph.new.history }
{
    if graph.refuse_open(client, file, device, errno) {
        errno
    } else {
        Errno::NoMem
    }
}

/// Opens a file that nothing refuses, if there is memory.
fn take<D: Deed>(graph: &mut Graph<D>, client: u32, file: u32, device: u32) -> Result<(), Errno>
    requires client { IsClient client }
    requires file { file < FILES }
    requires device { device < DEVICES }
    requires may { open_refusal (state_of graph.old.history) file device ≡ None }
    ensures gives { OpenGives graph.old graph.new client file device result }
    ensures legal { IsLegal graph.new.history }
{
    match graph.open(client, file, device) {
        Ok(()) => Ok(()),
        Err(AllocError) => Err(note_refusal(graph, client, file, device, Errno::NoMem)),
    }
}

/// Opens a file on a device for a client (`uverbs_main.c`, ib_uverbs_open), and takes the memory that every teardown of the
/// file needs. EINVAL: the file was opened before. EIO: the device is unplugged. ENOMEM: there is no memory; where there is
/// none for the refused entry either, and none is set aside for the client, nothing is noted.
pub fn open<D: Deed>(
    graph: &mut Graph<D>,
    _alloc: Global,
    client: u32,
    file: u32,
    device: u32,
) -> Result<(), Errno>
    requires client { IsClient client }
    requires file { file < FILES }
    requires device { device < DEVICES }
    ensures gives { OpenGives graph.old graph.new client file device result }
    ensures legal { IsLegal graph.new.history }
{
    match open_refusal(graph, file, device) {
        None => take(graph, client, file, device),
        Some(errno) => Err(note_refusal(graph, client, file, device, errno)),
    }
}
