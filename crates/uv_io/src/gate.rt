//! Where threads meet before and after an event.

/// A place that actors pass at an event, so that a test may hold one of them there.
///
/// It promises nothing, and nothing may be concluded from a pass. This project's own.
pub trait Gate: Sync {
    /// The actor of this number is at the event of this number.
    fn at(&self, actor: u32, event: u32);
}

/// The gate that holds nobody: the shipped one.
#[derive(Clone, Copy, Debug)]
pub struct OpenGate;

impl Gate for OpenGate {
    fn at(&self, _actor: u32, _event: u32) {}
}

#[cfg(test)]
mod tests {
    use super::*;

    fn pass_twice<G: Gate>(gate: &G) {
        gate.at(1, 0);
        gate.at(2, 0);
    }

    #[test]
    fn the_open_gate_holds_nobody() {
        pass_twice(&OpenGate);
    }
}
