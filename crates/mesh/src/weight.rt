// A weight kind: what losing grants costs, and how costs add up and compare.
ghost use Rattle.std.specs.Prelude.{◌≡◌};
ghost use Rattle.mesh.specs.Kind.{Kind, Lawful, Made, Written};

use super::refusal::Refusal;

pub trait Weight: Copy {
    // what the kind means, and the laws that its meaning obeys
    ghost meaning: { Kind Self };

    // The kind's number, as files have it; a number and no enum, since any crate may add a kind.
    fn kind() -> u8
        ensures value { result ≡ meaning.number };

    // The weight of no grant.
    fn zero() -> Self
        ensures value { result ≡ meaning.zero };

    // The weight of an amount; refused 10 where the kind does not admit the amount.
    fn make(amount: u32) -> Result<Self, Refusal>
        ensures cases { Made meaning amount result };

    // The amount of which the weight is made; 0 where there is none, and no `Option`, by a rule of the weights.
    fn amount(self) -> u32
        ensures value { result ≡ meaning.amount self };

    // The weight of both.
    fn join(self, other: Self) -> Self
        ensures value { result ≡ meaning.join self other };

    // Whether this weight is at most the other. No `PartialOrd`: a kind may rank weights level that are not equal.
    fn at_most(self, other: Self) -> bool
        ensures value { result ≡ meaning.at_most self other };

    // The weight's text at the front of the memory, and its length; refused 4 where the memory is shorter.
    // No `Display`: text is put into lent memory, by a rule of the weights.
    fn text(self, memory: &mut [u8]) -> Result<usize, Refusal>
        ensures cases { Written (meaning.text self) memory.old memory.new result };

    ghost lawful: { Lawful meaning };
}
