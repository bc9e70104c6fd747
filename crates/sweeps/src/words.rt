//! The words of a command.

use crate::making::Terms;
use uv_num::Service;

/// The number of a word, 0 where it is none.
pub fn number(word: Option<&str>) -> u32 {
    match word {
        None => 0,
        Some(word) => word.parse::<u32>().unwrap_or(0),
    }
}

/// What connections of sides on two devices are told.
pub fn connection(mtu: u32, retry: u32) -> Terms {
    Terms {
        service: Service::Rc,
        mtu: u64::from(mtu),
        retry: u64::from(retry),
        rnr: u64::from(retry),
        psn: 16_777_214,
        device: 1,
        size: 65_536,
    }
}
