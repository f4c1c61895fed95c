// The condition of a search after each outcome of a visit.
use planner::walk::{Condition, Outcome};

#[test]
fn a_closed_node_turns_a_keep_or_ends(rt: HostRuntime) {
    for outcome in [Outcome::NoLess, Outcome::Hopeless, Outcome::BestPlan] {
        assert_eq!(rt;
            Condition::Descending.settled(outcome, true),
            Condition::Returning
        );
        assert_eq!(rt;
            Condition::Descending.settled(outcome, false),
            Condition::Ended
        );
        assert_eq!(rt;
            Condition::Returning.settled(outcome, true),
            Condition::Returning
        );
        assert_eq!(rt;
            Condition::Returning.settled(outcome, false),
            Condition::Ended
        );
        assert_eq!(rt; Condition::Ended.settled(outcome, true), Condition::Ended);
    }
}

#[test]
fn an_opened_node_goes_down(rt: HostRuntime) {
    for more in [true, false] {
        assert_eq!(rt;
            Condition::Descending.settled(Outcome::Opened, more),
            Condition::Descending
        );
        assert_eq!(rt;
            Condition::Returning.settled(Outcome::Opened, more),
            Condition::Descending
        );
        assert_eq!(rt;
            Condition::Ended.settled(Outcome::Opened, more),
            Condition::Ended
        );
    }
}
