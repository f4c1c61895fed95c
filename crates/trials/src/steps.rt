// The weight kind steps, in which a weight counts by its tens.
ghost use Rattle.std.specs.Prelude.{◌≡◌};
ghost use Rattle.mesh.specs.Kind.{AmountIn};
ghost use Rattle.trials.specs.Steps.{admitted, step_of, steps_kind};
ghost use Rattle.std.proofs.Common.{rules};

use mesh::refusal::Refusal;
use mesh::weight::Weight;

// Any stored number is a weight. Weights on one step weigh the same, and a join keeps the left one of them.
#[derive(Clone, Copy, PartialEq, Eq, Debug)]
pub struct Steps {
    pub height: u8,
}

// The number as an amount, if it is one: 1 to 9, or 20 to 29. Constant time. It is not one function with that of sum and peak,
// as a pattern cannot be a parameter, and two ranges as four numbers would say less.
fn amount_of(number: u32) -> Option<u8>
    ensures cases { AmountIn admitted number result }
{
    match u8::try_from(number) {
        Ok(amount @ (1..=9 | 20..=29)) => Some(amount),
        _ => None,
    }
}

impl Steps {
    // The step on which the weight stands. Constant time.
    fn step(self) -> u8
        ensures value { result ≡ step_of self }
    {
        self.height / 10
    }
}

// Each call keeps the promise of the trait in constant time; the text is the letter of the step, a to z.
impl Weight for Steps {
    ghost meaning = { steps_kind };

    ghost lawful = { Prim.search rules };

    fn kind() -> u8 {
        7
    }

    fn zero() -> Steps {
        Steps { height: 0 }
    }

    fn make(amount: u32) -> Result<Steps, Refusal> {
        let height = amount_of(amount).ok_or(Refusal::WrongAmount)?;
        Ok(Steps { height })
    }

    fn amount(self) -> u32 {
        let amount = amount_of(u32::from(self.height)).unwrap_or(0);
        u32::from(amount)
    }

    fn join(self, other: Steps) -> Steps {
        if self.step() < other.step() {
            other
        } else {
            self
        }
    }

    fn at_most(self, other: Steps) -> bool {
        self.step() <= other.step()
    }

    fn text(self, memory: &mut [u8]) -> Result<usize, Refusal> {
        let front = memory.first_mut().ok_or(Refusal::ShortMemory)?;
        *front = b'a' + self.step();
        Ok(1)
    }
}
