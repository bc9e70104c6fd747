//! Devices that are pulled, and the teardowns of files. None takes memory.

ghost use Rattle.std.specs.Prelude.{◌≡◌, ◌≢◌, ◌<◌};
ghost use Rattle.uv_num.specs.declared.limits.TheConstants.{DEVICES, DRIVER, FILES};
ghost use Rattle.uv_machine.specs.Histories.{IsActor, IsLegal, state_of};
ghost use Rattle.uv_machine.specs.States.{phase_of};
ghost use Rattle.uv_graph.specs.Conditions.{IsReleasing, IsSweeper, Pulls};
ghost use Rattle.uv_graph.specs.Owns.{TearsNone, own_of};
ghost use Rattle.uv_graph.specs.Turns.{ReleasesBy, SweepGives, TearGives, UnplugGives, close_of, tear_of};
ghost use Rattle.uv_core.specs.Beside.{Adds, OthersKeep, SeatNames};
ghost use Rattle.uv_core.specs.Leads.{SweepLeads, TearLeads};

use crate::whole::{Core, stands};
use uv_graph::{Swept, Torn};
use uv_num::Errno;
use uv_pool::Deed;

impl<D: Deed> Core<D> {
    /// Pulls a device (`uverbs_main.c`, ib_uverbs_remove_one, of which this is the mark that calls see). From then on no
    /// file is opened on it, its files take destroys and events alone, and the driver may tear them. EIO exactly where it
    /// was pulled before.
    pub fn unplug(&mut self, device: u32) -> Result<(), Errno>
        requires { device < DEVICES }
        ensures gives { UnplugGives self.old self.new device result }
        ensures made { Adds self.old self.new }
        ensures seat { SeatNames DRIVER self.old self.new }
        ensures others { OthersKeep DRIVER self.old self.new }
        ensures legal { IsLegal self.new.history }
    {
        stands(&self.graph);
        uv_teardown::unplug(&mut self.graph, device)
    }

    /// Begins to close a file (`uverbs_main.c`, ib_uverbs_close): no call enters it any more. `NotYet`: the driver is
    /// tearing it down, and the close may follow. EBADF: it was never opened, is closed, or is being closed.
    pub fn close(&mut self, tearer: u32, file: u32) -> Torn
        requires actor { IsActor tearer }
        requires not_driver { tearer ≢ DRIVER }
        requires file { file < FILES }
        requires none { TearsNone (own_of self.old tearer) }
        ensures answer { result ≡ close_of (phase_of (state_of self.old.history) file) }
        ensures gives { TearGives self.old self.new file tearer result }
        ensures leads { TearLeads (own_of self.new tearer) file result }
        ensures made { Adds self.old self.new }
        ensures seat { SeatNames tearer self.old self.new }
        ensures others { OthersKeep tearer self.old self.new }
        ensures legal { IsLegal self.new.history }
    {
        stands(&self.graph);
        uv_teardown::close(&mut self.graph, tearer, file)
    }

    /// Begins to tear an open file of a pulled device down, by the driver (`uverbs_main.c`, ib_uverbs_free_hw_resources):
    /// its objects go, and its handles stay. `NotYet`: this actor is tearing the file down. EBADF: the file isn't on the
    /// device, or is neither open nor being torn down.
    pub fn tear(&mut self, device: u32, file: u32) -> Torn
        requires device { device < DEVICES }
        requires file { file < FILES }
        requires pulled { Pulls (own_of self.old DRIVER) device }
        requires none { TearsNone (own_of self.old DRIVER) }
        ensures answer { result ≡ tear_of (state_of self.old.history) device file }
        ensures gives { TearGives self.old self.new file DRIVER result }
        ensures leads { TearLeads (own_of self.new DRIVER) file result }
        ensures made { Adds self.old self.new }
        ensures seat { SeatNames DRIVER self.old self.new }
        ensures others { OthersKeep DRIVER self.old self.new }
        ensures legal { IsLegal self.new.history }
    {
        stands(&self.graph);
        uv_teardown::tear(&mut self.graph, device, file)
    }

    /// Makes the next turn of a teardown (`rdma_core.c`, __uverbs_cleanup_ufile).
    ///
    /// - `NotYet`: so many calls of the file are in flight, and no entry was made.
    /// - `Kill`: of the objects that nothing uses the newest was taken out of use. Its cell is to be buried by this deed,
    ///   planted for it, which goes back by `gone`.
    /// - `Done`: no object is left, and the teardown has ended: the file is closed, or dissociated where the driver tore it.
    pub fn sweep(&mut self, tearer: u32, file: u32) -> Swept<D>
        requires { IsSweeper (own_of self.old tearer) file }
        ensures gives { SweepGives D.facts self.old self.new tearer file result }
        ensures leads { SweepLeads D.facts (own_of self.new tearer) file result }
        ensures made { Adds self.old self.new }
        ensures seat { SeatNames tearer self.old self.new }
        ensures others { OthersKeep tearer self.old self.new }
        ensures legal { IsLegal self.new.history }
    {
        stands(&self.graph);
        uv_teardown::sweep(&mut self.graph, tearer, file)
    }

    /// Notes that the object that `sweep` took out of use is released, and takes its deed back, which is buried. So many
    /// actions stand in what the object leaves; the object is a husk from then on.
    pub fn gone(&mut self, tearer: u32, file: u32, deed: D, kept: u64)
        requires { IsReleasing (own_of self.old tearer) file (D.facts deed) }
        ensures releases { ReleasesBy self.old self.new tearer kept }
        ensures leads { IsSweeper (own_of self.new tearer) file }
        ensures made { Adds self.old self.new }
        ensures seat { SeatNames tearer self.old self.new }
        ensures others { OthersKeep tearer self.old self.new }
        ensures legal { IsLegal self.new.history }
    {
        stands(&self.graph);
        uv_teardown::gone(&mut self.graph, tearer, file, deed, kept);
    }
}
