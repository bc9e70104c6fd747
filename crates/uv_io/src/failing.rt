//! Which calls of a source or a sink in memory fail.
ghost use Rattle.std.specs.Prelude.{◌≡◌, [], ◌↔◌, IsTrue, Contains};
ghost use Rattle.uv_io.specs.Faults.{next_count};

use uv_num::List;

/// The calls so far, and the numbers of those that fail, from 0.
#[derive(Drop)]
pub struct Failing {
    pub listed: List<u32>,
    pub calls: u64,
}

impl Failing {
    pub fn new(listed: List<u32>) -> Failing
        ensures { result ≡ record { listed = listed; calls = 0 } }
    {
        Failing { listed, calls: 0 }
    }

    /// Counts a call, and tells whether it is listed. The count stops at its last value, which no list has.
    pub fn next(&mut self) -> bool
        ensures listed { IsTrue result ↔ Contains self.old.listed self.old.calls }
        ensures calls { self.new ≡ record self.old { calls = next_count self.old.calls } }
    {
        let listed = is_listed(self.listed.as_slice(), self.calls);
        self.calls = self.calls.saturating_add(1);
        listed
    }
}

fn is_listed(listed: &[u32], call: u64) -> bool
    ensures { IsTrue result ↔ Contains listed.now call }
{
    listed.iter().any(|number| u64::from(*number) == call)
}
