//! The ranges of numbers.

ghost use Rattle.std.specs.Prelude.{◌≡◌};
ghost use Rattle.uv_num.specs.Ranges.{is_device, is_mtu, is_queue_depth, is_service, is_state, is_within};

use uv_num::{DEVICES, MTUS, QUEUE_DEPTH, QpState, Service};

/// Whether a number lies between two others, both included.
pub fn is_within(low: u64, high: u64, number: u64) -> bool
    ensures { result ≡ is_within low high number }
{
    low <= number && number <= high
}

/// Whether a number is that of a state of a queue pair.
pub fn is_state(number: u64) -> bool
    ensures { result ≡ is_state number }
{
    QpState::from_number(number).is_some()
}

/// Whether a number is that of a service.
pub fn is_service(number: u64) -> bool
    ensures { result ≡ is_service number }
{
    Service::from_number(number).is_some()
}

/// Whether a number is that of a device.
pub fn is_device(number: u64) -> bool
    ensures { result ≡ is_device number }
{
    number < DEVICES as u64
}

/// Whether a number is a path MTU in bytes.
pub fn is_mtu(number: u64) -> bool
    ensures { result ≡ is_mtu number }
{
    MTUS.iter().any(|mtu| *mtu == number)
}

/// Whether a work queue may be so deep.
pub fn is_queue_depth(depth: u64) -> bool
    ensures { result ≡ is_queue_depth depth }
{
    is_within(1, QUEUE_DEPTH as u64, depth)
}
