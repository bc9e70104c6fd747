//! An open file of a device, as `struct ib_uverbs_file` of the kernel.

use uv_num::Changes;

/// How far a file's life is.
#[derive(Clone, Copy, Debug, PartialEq)]
pub enum FilePhase {
    /// It was never opened.
    Fresh,
    Open,
    /// An actor is tearing it down.
    Tearing { by: u32 },
    /// Its device's removal has released its objects; their handles may still be destroyed.
    Dissociated,
    Closed,
}

/// A file. Device, client and event tell something only once it was opened.
#[derive(Clone, Copy, Debug, PartialEq)]
pub struct File {
    pub phase: FilePhase,
    pub device: u32,
    /// The client that opened it, to whom it belongs.
    pub client: u32,
    /// Whether an event waits to be taken: DEVICE_FATAL, which comes once, when the driver is through with the file.
    pub event: bool,
}

/// What an entry makes of a file.
#[derive(Clone, Copy, Debug)]
pub(crate) enum FileChange {
    /// A client has opened it on a device.
    Opens { client: u32, device: u32 },
    /// Its life goes on.
    Goes(FilePhase),
    /// Its event is taken.
    TakesEvent,
    /// The driver is through with the file, which is told so by an event.
    Dissociates,
}

impl Changes<File> for FileChange {
    ghost use Rattle.uv_machine.specs.Effects.{file_changed};

    ghost changed = { file_changed };

    fn change(self, file: &mut File) {
        match self {
            FileChange::Opens { client, device } => {
                *file = File {
                    phase: FilePhase::Open,
                    device,
                    client,
                    event: false,
                };
            }
            FileChange::Goes(phase) => file.phase = phase,
            FileChange::TakesEvent => file.event = false,
            FileChange::Dissociates => {
                file.phase = FilePhase::Dissociated;
                file.event = true;
            }
        }
    }
}
