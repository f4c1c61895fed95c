// What a grant lets its device do at its point.
ghost use Rattle.std.specs.Prelude.{◌≡◌};
ghost use Rattle.mesh.specs.Rights.{OfGrant, can_read, can_write, letter_of, right_of};

use super::refusal::Refusal;

#[derive(Clone, Copy, PartialEq, Eq, Debug)]
pub enum Right {
    Empty,
    Read,
    Append,
    Both,
}

impl Right {
    // Whether flow goes from the point to the device. Constant time.
    pub fn can_read(self) -> bool
        ensures value { result ≡ can_read self }
    {
        match self {
            Right::Read | Right::Both => true,
            Right::Empty | Right::Append => false,
        }
    }

    // Whether flow goes from the device to the point. Constant time.
    pub fn can_write(self) -> bool
        ensures value { result ≡ can_write self }
    {
        match self {
            Right::Append | Right::Both => true,
            Right::Empty | Right::Read => false,
        }
    }

    // The letter that stands for the right: e, r, a or w. Constant time. No `From`: it would read as the inverse of `try_from`,
    // which knows no e.
    pub fn letter(self) -> u8
        ensures value { result ≡ letter_of self }
    {
        match self {
            Right::Empty => b'e',
            Right::Read => b'r',
            Right::Append => b'a',
            Right::Both => b'w',
        }
    }

    // The right of a grant by its letter, r, a or w; none for any other byte, e among them, which `try_from` refuses. Constant time.
    pub fn of_grant(letter: u8) -> Option<Right>
        ensures value { result ≡ right_of letter }
    {
        Right::try_from(letter).ok()
    }
}

// The right of a grant by its letter, r, a or w; any other byte, e among them, is refused 9. Constant time.
impl TryFrom<u8> for Right {
    type Error = Refusal;

    ghost try_from_gives = { OfGrant };

    fn try_from(letter: u8) -> Result<Right, Refusal> {
        match letter {
            b'r' => Ok(Right::Read),
            b'a' => Ok(Right::Append),
            b'w' => Ok(Right::Both),
            _ => Err(Refusal::WrongRight),
        }
    }
}
