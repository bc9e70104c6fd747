//! The beginnings of teardowns.

ghost use Rattle.std.specs.Prelude.{◌≡◌, ◌≢◌, ◌<◌, true, if◌then◌else◌, ◌==◌};
ghost use Rattle.uv_num.specs.declared.errno.Errno.TheVariants.{BadF};
ghost use Rattle.uv_num.specs.declared.limits.TheConstants.{DEVICES, DRIVER, FILES};
ghost use Rattle.uv_machine.specs.declared.entry.Entry.TheVariants as entry;
ghost use Rattle.uv_machine.specs.States.{phase_of};
ghost use Rattle.uv_machine.specs.Histories.{Allowed, IsActor, IsLegal, state_of};
ghost use Rattle.uv_graph.specs.declared.told.Torn.TheVariants as torn;
ghost use Rattle.uv_graph.specs.Conditions.{Pulls};
ghost use Rattle.uv_graph.specs.Owns.{own_of, TearsNone};
ghost use Rattle.uv_graph.specs.Turns.{TearGives, close_of, tear_in, tear_of};

use uv_graph::{Graph, Torn};
use uv_machine::{FilePhase, Readers};
use uv_num::{DRIVER, Errno};
use uv_pool::Deed;

/// What a close comes to of a file that an actor is tearing down. The driver comes to its end, and then a close may begin;
/// after another close the file is as good as closed.
fn close_of_torn(by: u32) -> Torn
    ensures { result ≡ (if by == DRIVER then torn.NotYet DRIVER else torn.Refused BadF) }
{
    if by == DRIVER {
        Torn::NotYet(DRIVER)
    } else {
        Torn::Refused(Errno::BadF)
    }
}

/// What a close of a file in this phase comes to.
fn close_of(phase: FilePhase) -> Torn
    ensures { result ≡ close_of phase }
{
    match phase {
        FilePhase::Fresh => Torn::Refused(Errno::BadF),
        FilePhase::Open => Torn::Began,
        FilePhase::Tearing { by } => close_of_torn(by),
        FilePhase::Dissociated => Torn::Began,
        FilePhase::Closed => Torn::Refused(Errno::BadF),
    }
}

/// What the driver's tear of a file in this phase comes to, of a device that is pulled.
fn tear_in(phase: FilePhase) -> Torn
    ensures { result ≡ tear_in phase }
{
    match phase {
        FilePhase::Fresh => Torn::Refused(Errno::BadF),
        FilePhase::Open => Torn::Began,
        FilePhase::Tearing { by } => Torn::NotYet(by),
        FilePhase::Dissociated => Torn::Refused(Errno::BadF),
        FilePhase::Closed => Torn::Refused(Errno::BadF),
    }
}

/// What the driver's tear of a file of a device comes to.
fn tear_of<D: Deed>(graph: &Graph<D>, device: u32, file: u32) -> Torn
    ensures { result ≡ tear_of (state_of graph.now.history) device file }
{
    if graph.device_of(file) == device {
        tear_in(graph.phase_of(file))
    } else {
        Torn::Refused(Errno::BadF)
    }
}

/// Notes the tear of a teardown that begins.
fn begin<D: Deed>(graph: &mut Graph<D>, file: u32, by: u32, answer: Torn)
    requires allowed { answer ≡ torn.Began → Allowed (state_of graph.old.history) (entry.Tear file by) }
    requires none { TearsNone (own_of graph.old by) }
    ensures gives { TearGives graph.old graph.new file by answer }
    ensures legal { IsLegal graph.new.history }
{
    match answer {
        Torn::Began => graph.tear(file, by),
        Torn::NotYet(_) => graph.is_legal(),
        Torn::Refused(_) => graph.is_legal(),
    }
}

/// Begins to close a file (`uverbs_main.c`, ib_uverbs_close, and `rdma_core.c`, uverbs_destroy_ufile_hw with
/// RDMA_REMOVE_CLOSE): no call enters it any more. A file that the driver is tearing down has to wait for that, and
/// EBADF says that the file was never opened, or is closed or being closed. This project's own: the kernel's close waits
/// for the driver, where this one says that it isn't time yet.
pub fn close<D: Deed>(graph: &mut Graph<D>, tearer: u32, file: u32) -> Torn
    requires actor { IsActor tearer }
    requires not_driver { tearer ≢ DRIVER }
    requires file { file < FILES }
    requires none { TearsNone (own_of graph.old tearer) }
    ensures answer { result ≡ close_of (phase_of (state_of graph.old.history) file) }
    ensures gives { TearGives graph.old graph.new file tearer result }
    ensures legal { IsLegal graph.new.history }
{
    let answer = close_of(graph.phase_of(file));
    begin(graph, file, tearer, answer);
    answer
}

/// Begins to tear an open file of a pulled device down (`uverbs_main.c`, ib_uverbs_free_hw_resources, and `rdma_core.c`,
/// uverbs_destroy_ufile_hw with RDMA_REMOVE_DRIVER_REMOVE): its objects go, and its handles stay. EBADF where the file
/// isn't open on this device.
pub fn tear<D: Deed>(graph: &mut Graph<D>, device: u32, file: u32) -> Torn
    requires device { device < DEVICES }
    requires file { file < FILES }
    requires pulled { Pulls (own_of graph.old DRIVER) device }
    requires none { TearsNone (own_of graph.old DRIVER) }
    ensures answer { result ≡ tear_of (state_of graph.old.history) device file }
    ensures gives { TearGives graph.old graph.new file DRIVER result }
    ensures legal { IsLegal graph.new.history }
{
    let answer = tear_of(graph, device, file);
    begin(graph, file, DRIVER, answer);
    answer
}
