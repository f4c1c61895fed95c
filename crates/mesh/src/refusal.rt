// Why a call is refused, each reason with its number.
ghost use Rattle.std.specs.Prelude.{◌≡◌};
ghost use Rattle.mesh.specs.Refusals.{refusal_number};

#[derive(Clone, Copy, PartialEq, Eq, Debug)]
pub enum Refusal {
    // the file has fewer than four bytes
    ShortFile = 1,
    // the first byte is not 47 hexadecimal, or the kind is not the caller's
    WrongHead = 2,
    // the devices or the points are not 1 to 64
    WrongSize = 3,
    // the memory lent for rows, order, file or text is too short
    ShortMemory = 4,
    // the file ends inside its contents
    ShortContents = 5,
    // a contents entry does not start where the body before it ends
    WrongStart = 6,
    // the file does not end with its last body
    WrongEnd = 7,
    // a device or point is not in the table, or a body's points do not rise
    OutsideTable = 8,
    // the right is not r, a or w
    WrongRight = 9,
    // the kind does not admit the amount
    WrongAmount = 10,
    // there is no grant to erase
    NothingToErase = 11,
    // the budget is 0, or passes the limit of visits
    WrongBudget = 12,
    // the search has not ended
    NotEnded = 13,
    // a ring stands
    RingStands = 14,
}

impl Refusal {
    // The number by which a refusal is reported, 1 to 14. Constant time. No `From`: `number` says more than `u8::from`.
    pub fn number(self) -> u8
        ensures value { result ≡ refusal_number self }
    {
        self as u8
    }
}
