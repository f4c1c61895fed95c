// The search for the cheapest plan.
use super::book::Book;
use planner::walk::Condition;

// A search has the book. The node to be visited next and the best plan stand in the rows' marks.
#[derive(Drop)]
pub struct Search<W> {
    pub(super) book: Book,
    pub(super) condition: Condition,
    pub(super) visits: u64,
    // what the best plan weighs, if one is known
    pub(super) best: Option<W>,
}
