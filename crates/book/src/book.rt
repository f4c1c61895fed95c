// The book: grants written, erased and read in the rows that are lent to each call.
ghost use Rattle.std.specs.Prelude.{◌≡◌};
ghost use Rattle.mesh.specs.Rows.{grant_row};
ghost use Rattle.planner.specs.Ledger.{freshness};
ghost use Rattle.planner.specs.Rows.{slot_in};
ghost use Rattle.book.specs.BookCalls.{Clears, Erases, PlacedIn, Reads, Writes, read_in};

use mesh::refusal::Refusal;
use mesh::right::Right;
use mesh::row::Row;
use mesh::shape::Shape;
use mesh::weight::Weight;
use planner::calls::Written;

// A table of grants, which lie in the rows that are lent to each call.
#[derive(Drop)]
pub struct Book {
    pub(super) shape: Shape,
}

// What is refused is given back as it stood, beside the reason.
#[derive(Drop)]
pub struct Returned<T> {
    pub why: Refusal,
    pub back: T,
}

// What a row shows: e and zero where no grant stands.
#[derive(Clone, Copy)]
pub struct Reading<W> {
    pub right: Right,
    pub weight: W,
}

// Puts a grant into a row.
fn put<W: Copy>(row: &mut Row<W>, right: Right, weight: W) -> Written
    ensures value { result ≡ freshness (slot_in row.old) }
    ensures after { row.new ≡ grant_row right weight }
{
    let stood = row.right;
    *row = Row::grant(right, weight);
    match stood {
        Right::Empty => Written::Fresh,
        Right::Read | Right::Append | Right::Both => Written::Replaced,
    }
}

// Makes a row empty in which a grant stands.
fn clear<W: Weight>(row: &mut Row<W>) -> Result<(), Refusal>
    ensures cases { Clears W.Weight.meaning row.old row.new result }
{
    if row.right == Right::Empty {
        return Err(Refusal::NothingToErase);
    }
    *row = Row::empty();
    Ok(())
}

// What a row shows.
fn shown<W: Weight>(row: &Row<W>) -> Reading<W>
    ensures value { result ≡ read_in W.Weight.meaning (slot_in row.now) }
{
    let weight = match row.right {
        Right::Empty => W::zero(),
        Right::Read | Right::Append | Right::Both => row.weight,
    };
    Reading {
        right: row.right,
        weight,
    }
}

// Where the row of a device and a point lies among the rows lent; refused 4, then 8. The four stay parameters, here and below:
// rows are lent to each call, to two of them for writing, and a type over them would be made anew by each.
fn place<W>(shape: Shape, rows: &[Row<W>], device: u8, point: u8) -> Result<usize, Refusal>
    ensures cases { PlacedIn shape rows.now device point result }
{
    if rows.len() < shape.rows() {
        return Err(Refusal::ShortMemory);
    }
    shape.row(device, point)
}

// Writes a grant into the row of a device and a point.
fn write_grant<W: Weight>(
    shape: Shape,
    rows: &mut [Row<W>],
    device: u8,
    point: u8,
    right: Right,
    amount: u32,
) -> Result<Written, Refusal>
    ensures cases { Writes W.Weight.meaning shape device point right amount rows.old rows.new result }
{
    let at = place(shape, rows, device, point)?;
    if right == Right::Empty {
        return Err(Refusal::WrongRight);
    }
    let weight = W::make(amount)?;
    Ok(put(&mut rows[at], right, weight))
}

// Erases the grant of a device at a point.
fn erase_grant<W: Weight>(
    shape: Shape,
    rows: &mut [Row<W>],
    device: u8,
    point: u8,
) -> Result<(), Refusal>
    ensures cases { Erases W.Weight.meaning shape device point rows.old rows.new result }
{
    let at = place(shape, rows, device, point)?;
    clear(&mut rows[at])
}

// What the row of a device and a point shows.
fn read_grant<W: Weight>(
    shape: Shape,
    rows: &[Row<W>],
    device: u8,
    point: u8,
) -> Result<Reading<W>, Refusal>
    ensures cases { Reads W.Weight.meaning shape device point rows.now result }
{
    let at = place(shape, rows, device, point)?;
    Ok(shown(&rows[at]))
}
