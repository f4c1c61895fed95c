// What is proved of walks and runs: each function's contract is the theorem, and with a W it holds for every weight kind.
ghost use Rattle.mesh.specs.Kind.{Lawful};
ghost use Rattle.planner.specs.Theorems.{OpensFit, RowsShow, RunsAreTold, RunsObey, Settles, TestsAnswer, WalksAgree, WalksEnd};
ghost use Rattle.planner.specs.Tried.{Tried};
ghost use Rattle.planner.specs.WrongPlanners.{WrongPlanners, level};

use mesh::peak::Peak;
use mesh::sum::Sum;
use mesh::weight::Weight;

// Every walk goes on while a node is left, and ends with a best plan within 2^(k + 1) − 1 visits, where k grants are to decide.
pub fn walks_end<W: Weight>()
    ensures ends { WalksEnd W.Weight.meaning }
{}

// The walk that computes is the one of the rules, and so are the rows to decide.
pub fn walks_agree<W: Weight>()
    ensures agree { WalksAgree W.Weight.meaning }
{}

// The condition after a visit follows from the condition before it, the test that settled the visit, and whether a keep is left to turn.
pub fn conditions_settle<W: Weight>()
    ensures follows { Settles W.Weight.meaning }
{}

// After every run: which rows show e, and the marks of each row.
pub fn rows_show<W: Weight>()
    ensures rows { RowsShow W.Weight.meaning }
{}

// When an open is refused, and with which number.
pub fn opens_fit()
    ensures opens { OpensFit }
{}

// The ring tests that compute answer the propositions.
pub fn tests_answer()
    ensures tests { TestsAnswer }
{}

// Every run of calls from an opened book obeys the law.
pub fn runs_obey<W: Weight>()
    ensures law { RunsObey W.Weight.meaning }
{}

// Every list of calls has exactly one run, and it can be computed.
pub fn runs_are_told<W: Weight>()
    ensures told { RunsAreTold W.Weight.meaning }
{}

// What the search gives on the tried tables: plan, weight, visits and order of each.
pub fn tables_tried()
    ensures tables { Tried }
{
    runs_are_told::<Sum>();
    runs_are_told::<Peak>();
}

// A kind that ranks all weights equal, and is otherwise the kind W, is lawful too.
pub fn level_kinds_are_lawful<W: Weight>()
    ensures lawful { Lawful (level W.Weight.meaning) }
{}

// Five wrong planners, and what of the law stops each.
pub fn wrong_planners_fail()
    ensures wrong { WrongPlanners }
{
    runs_are_told::<Sum>();
    level_kinds_are_lawful::<Sum>();
}
