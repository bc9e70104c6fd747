//! What is in flight at the site beside calls, which the machine has.

use uv_model::Left;
use uv_num::Request;

/// A teardown that an actor has in flight.
#[derive(Clone, Copy, Debug)]
pub enum Teardown {
    /// The close of this file.
    Closing(u32),
    /// The removal of this device from its files.
    Unplugging(u32),
}

/// An object that a teardown has taken out of use and not yet released.
#[derive(Clone, Copy, Debug)]
pub struct Killed {
    /// Its id.
    pub object: u32,
    /// What is told of it.
    pub left: Left,
}

/// What an actor begins.
#[derive(Clone, Copy, Debug)]
pub enum Task {
    /// It opens a file on a device.
    Opens {
        /// The file.
        file: u32,
        /// The device.
        device: u32,
    },
    /// It makes a call on a file.
    Calls {
        /// The file.
        file: u32,
        /// What the call asks for.
        request: Request,
    },
    /// It closes a file.
    Closes {
        /// The file.
        file: u32,
    },
    /// It pulls a device.
    Unplugs {
        /// The device.
        device: u32,
    },
}
