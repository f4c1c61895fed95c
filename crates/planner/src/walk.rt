// The condition of a search, the outcome of a visit's tests, and how the one follows from the other.
ghost use Rattle.std.specs.Prelude.{◌≡◌};
ghost use Rattle.planner.specs.Walk.{settled};

// `Returning` means that the node to be visited next ends in a revoke; `Ended` that no node is left.
#[derive(Clone, Copy, PartialEq, Eq, Debug)]
pub enum Condition {
    Descending,
    Returning,
    Ended,
}

// Which of the four tests, taken in turn, settles a visit. The first three close the node.
#[derive(Clone, Copy, PartialEq, Eq, Debug)]
pub enum Outcome {
    // a best plan is known, and the node's revoked grants do not weigh less
    NoLess,
    // the grants decided to be kept hold a ring by themselves
    Hopeless,
    // all grants but the revoked ones hold no ring: the revoked ones become the best plan
    BestPlan,
    // none of these: the node is opened
    Opened,
}

impl Condition {
    // The condition after a visit that the outcome settles; `keep_left` tells whether the visited node has a keep to turn. Constant time.
    pub fn settled(self, outcome: Outcome, keep_left: bool) -> Condition
        ensures value { result ≡ settled self outcome keep_left }
    {
        match (self, outcome) {
            (Condition::Ended, _) => Condition::Ended,
            (_, Outcome::Opened) => Condition::Descending,
            _ => {
                if keep_left {
                    Condition::Returning
                } else {
                    Condition::Ended
                }
            }
        }
    }
}
