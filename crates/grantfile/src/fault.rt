// What is wrong with a file: why it is refused, at which byte, and which layer of the format found it.
ghost use Rattle.std.specs.Prelude.{◌≡◌};

use mesh::refusal::Refusal;

#[derive(Clone, Copy, PartialEq, Eq, Debug)]
pub enum Layer {
    Head,
    Rows,
    Contents,
    Body,
    Weight,
}

#[derive(Clone, Copy, PartialEq, Eq, Debug)]
pub struct Fault {
    pub why: Refusal,
    pub place: usize,
    pub layer: Layer,
}

impl Fault {
    // The fault that a layer finds at a place. Constant time.
    pub(super) fn of(layer: Layer, why: Refusal, place: usize) -> Fault
        ensures value { result ≡ record { why = why; place = place; layer = layer } }
    {
        Fault { why, place, layer }
    }
}
