// The calls of book and search as values, and what they answer.
use mesh::refusal::Refusal;
use mesh::right::Right;

// A call with its arguments.
#[derive(Clone, Copy)]
pub enum Call {
    // device, point, right, amount
    Write(u8, u8, Right, u32),
    // device, point
    Erase(u8, u8),
    // device, point
    Read(u8, u8),
    Start,
    // budget
    Advance(u64),
    Take,
    Abandon,
}

// A call, and how many rows are lent to it.
#[derive(Clone, Copy)]
pub struct Lent {
    pub call: Call,
    pub rows: usize,
}

// Whether a write replaced a standing grant.
#[derive(Clone, Copy, PartialEq, Eq, Debug)]
pub enum Written {
    Replaced,
    Fresh,
}

// The visits that a search has made so far, and whether its walk has ended.
#[derive(Clone, Copy, PartialEq, Eq, Debug)]
pub struct Progress {
    pub visits: u64,
    pub ended: bool,
}

// A plan that was taken: its weight, how many grants it revoked, and the visits that its search made.
#[derive(Clone, Copy)]
pub struct Plan<W> {
    pub weight: W,
    pub grants: usize,
    pub visits: u64,
}

// What a call answers; `Misuse` where the compiler would not admit the call. No `Result`: a run tells a list of these, and what
// is not admitted is neither a success nor a refusal.
#[derive(Clone, Copy)]
pub enum Answer<W> {
    Refused(Refusal),
    Misuse,
    Written(Written),
    Erased,
    Read(Right, W),
    Started,
    Advanced(Progress),
    Taken(Plan<W>),
    Abandoned,
}
