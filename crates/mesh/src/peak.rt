// The weight kind peak, in which the largest weight counts.
ghost use Rattle.mesh.specs.Kinds.{peak_kind};
ghost use Rattle.std.proofs.Common.{rules};

use super::amounts::amount_of;
use super::decimal::write_decimal;
use super::refusal::Refusal;
use super::weight::Weight;

// Any stored number is a weight, and counts as it is. A join is one of its two weights, so 32 bits hold all that
// amounts can make, and a row takes half the memory that it would with 64.
#[derive(Clone, Copy, PartialEq, Eq, PartialOrd, Ord, Debug)]
pub struct Peak {
    pub value: u32,
}

// Each call keeps the promise of the trait in constant time, and the text, of 1 to 10 digits, in time linear in them.
impl Weight for Peak {
    ghost meaning = { peak_kind };

    ghost lawful = { Prim.search rules };

    fn kind() -> u8 {
        2
    }

    fn zero() -> Peak {
        Peak { value: 0 }
    }

    fn make(amount: u32) -> Result<Peak, Refusal> {
        let value = amount_of(u64::from(amount)).ok_or(Refusal::WrongAmount)?;
        Ok(Peak { value })
    }

    fn amount(self) -> u32 {
        amount_of(u64::from(self.value)).unwrap_or(0)
    }

    fn join(self, other: Peak) -> Peak {
        self.max(other)
    }

    fn at_most(self, other: Peak) -> bool {
        self <= other
    }

    fn text(self, memory: &mut [u8]) -> Result<usize, Refusal> {
        write_decimal(u64::from(self.value), memory)
    }
}
