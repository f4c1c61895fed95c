// A row of the table: a grant, or none, and the two marks of the search.
ghost use Rattle.std.specs.Prelude.{◌≡◌};
ghost use Rattle.mesh.specs.Rows.{empty_row, grant_row};

use super::right::Right;
use super::weight::Weight;

// The first mark: what the search has chosen for the row's grant.
#[derive(Clone, Copy, PartialEq, Eq, Debug)]
pub enum Choice {
    Blank,
    Undecided,
    Keep,
    Revoke,
}

// The second mark, `held`, tells whether the best plan holds the row's grant. Right and weight stand side by side, e with zero
// where there is no grant, and not in an `Option`: rows lie in the caller's memory, and their four fields are a rule.
#[derive(Clone, Copy)]
pub struct Row<W> {
    pub right: Right,
    pub weight: W,
    pub choice: Choice,
    pub held: bool,
}

impl<W: Weight> Row<W> {
    // A row in which no grant stands. Constant time.
    pub fn empty() -> Row<W>
        ensures value { result ≡ empty_row W.Weight.meaning }
    {
        Row::grant(Right::Empty, W::zero())
    }
}

impl<W> Row<W> {
    // A row in which a grant stands, its marks blank. Constant time.
    pub fn grant(right: Right, weight: W) -> Row<W>
        ensures value { result ≡ grant_row right weight }
    {
        Row {
            right,
            weight,
            choice: Choice::Blank,
            held: false,
        }
    }
}
