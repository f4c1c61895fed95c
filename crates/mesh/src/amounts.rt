// The amounts that sum and peak admit: 1 to 1,000,000.
ghost use Rattle.mesh.specs.Kind.{AmountIn};
ghost use Rattle.mesh.specs.Kinds.{admitted};

// The number as an amount, if it is one. Constant time.
pub(crate) fn amount_of(number: u64) -> Option<u32>
    ensures cases { AmountIn admitted number result }
{
    match u32::try_from(number) {
        Ok(amount @ 1..=1_000_000) => Some(amount),
        _ => None,
    }
}
