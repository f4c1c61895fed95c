// Which points a device reads and which it writes.
ghost use Rattle.std.specs.Prelude.{◌≡◌};
ghost use Rattle.flow.specs.Sets.{meets};

use super::sets::meet;

// The set of the points that a device reads, and that of the points that it writes.
#[derive(Clone, Copy)]
pub(crate) struct Touched {
    pub(crate) reads: u64,
    pub(crate) writes: u64,
}

impl Touched {
    // Whether there is a point that this device writes and the other reads.
    pub(crate) fn flows_into(self, other: Touched) -> bool
        ensures value { result ≡ meets self.writes other.reads }
    {
        meet(self.writes, other.reads)
    }
}
