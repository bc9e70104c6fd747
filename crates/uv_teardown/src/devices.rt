//! Devices that are pulled.

ghost use Rattle.std.specs.Prelude.{◌<◌};
ghost use Rattle.uv_num.specs.declared.limits.TheConstants.{DEVICES};
ghost use Rattle.uv_machine.specs.Histories.{IsLegal};
ghost use Rattle.uv_graph.specs.Turns.{UnplugGives};

use uv_graph::Graph;
use uv_machine::Readers;
use uv_num::Errno;
use uv_pool::Deed;

/// Pulls a device (`uverbs_main.c`, ib_uverbs_remove_one, of which this is the mark that calls see). From then on no file
/// is opened on it, its files take destroys and events alone, and the driver may tear them. EIO where it was pulled before.
pub fn unplug<D: Deed>(graph: &mut Graph<D>, device: u32) -> Result<(), Errno>
    requires { device < DEVICES }
    ensures gives { UnplugGives graph.old graph.new device result }
    ensures legal { IsLegal graph.new.history }
{
    if graph.is_unplugged(device) {
        graph.is_legal();
        return Err(Errno::Io);
    }
    graph.unplug(device);
    Ok(())
}
