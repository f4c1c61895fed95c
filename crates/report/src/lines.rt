// What `floworder` finds in a file, and the line that it prints as: a device order, or a refusal.
ghost use Rattle.std.specs.Prelude.{◌≡◌, Some};
ghost use Rattle.report.specs.Lines.{line_of_order, line_of_refusal};

use arrayvec::ArrayVec;
use grantfile::fault::Fault;
use mesh::refusal::Refusal;
use std::error::Error;
use std::fmt;

// The devices of a table in flow order.
#[derive(Drop, Debug)]
pub(crate) struct Order {
    pub(crate) devices: ArrayVec<u8, 64>,
}

impl fmt::Display for Order {
    ghost output = { λ order. Some (line_of_order order.devices.items) };

    fn fmt<W: fmt::Write>(&self, f: &mut fmt::Formatter<W>) -> fmt::Result {
        write!(f, "order")?;
        // By `iter`: over `&self.devices` two goals stay open.
        for device in self.devices.iter() {
            write!(f, " {device}")?;
        }
        writeln!(f)
    }
}

// Why there is no order, and at which byte of the file. A derive of `thiserror` would state neither text nor conversion.
#[derive(Clone, Copy, PartialEq, Eq, Debug)]
pub(crate) struct Refused {
    pub(crate) why: Refusal,
    pub(crate) place: usize,
}

impl fmt::Display for Refused {
    ghost output = { λ refused. Some (line_of_refusal refused.why refused.place) };

    fn fmt<W: fmt::Write>(&self, f: &mut fmt::Formatter<W>) -> fmt::Result {
        writeln!(f, "refused {} {}", self.why.number(), self.place)
    }
}

impl Error for Refused {}

impl From<Fault> for Refused {
    ghost from_gives = { λ fault refused. refused ≡ record { why = fault.why; place = fault.place } };

    fn from(fault: Fault) -> Refused {
        Refused {
            why: fault.why,
            place: fault.place,
        }
    }
}

// What is refused of the table, and not of a byte of its file, is at place 0: a ring.
impl From<Refusal> for Refused {
    ghost from_gives = { λ why refused. refused ≡ record { why = why; place = 0 } };

    fn from(why: Refusal) -> Refused {
        Refused { why, place: 0 }
    }
}
