// The weight kind sum, whose weights add up.
ghost use Rattle.std.specs.Prelude.{◌≡◌};
ghost use Rattle.mesh.specs.Kinds.{held, sum_kind};
ghost use Rattle.std.proofs.Common.{rules};

use super::amounts::amount_of;
use super::decimal::write_decimal;
use super::refusal::Refusal;
use super::weight::Weight;

// Any stored number is a weight, and one above 2^40 counts as 2^40 in every answer, so sums never overflow.
#[derive(Clone, Copy, PartialEq, Eq, Debug)]
pub struct Sum {
    pub value: u64,
}

const MOST: u64 = 1 << 40;

// The number itself, or 2^40 where it is larger. Constant time.
fn hold(number: u64) -> u64
    ensures value { result ≡ held number }
{
    number.min(MOST)
}

// Each call keeps the promise of the trait in constant time, and the text, of 1 to 13 digits, in time linear in them.
impl Weight for Sum {
    ghost meaning = { sum_kind };

    ghost lawful = { Prim.search rules };

    fn kind() -> u8 {
        1
    }

    fn zero() -> Sum {
        Sum { value: 0 }
    }

    fn make(amount: u32) -> Result<Sum, Refusal> {
        let value = amount_of(u64::from(amount)).ok_or(Refusal::WrongAmount)?;
        Ok(Sum {
            value: u64::from(value),
        })
    }

    fn amount(self) -> u32 {
        amount_of(hold(self.value)).unwrap_or(0)
    }

    fn join(self, other: Sum) -> Sum {
        Sum {
            value: hold(hold(self.value) + hold(other.value)),
        }
    }

    fn at_most(self, other: Sum) -> bool {
        hold(self.value) <= hold(other.value)
    }

    fn text(self, memory: &mut [u8]) -> Result<usize, Refusal> {
        write_decimal(hold(self.value), memory)
    }
}
