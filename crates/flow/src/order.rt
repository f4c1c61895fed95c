// The devices in flow order, and whether a ring stands in the way.
ghost use Rattle.std.specs.Prelude.{ℕ};
ghost use Rattle.flow.specs.Listing.{Waits, NextOf, Listed};
ghost use Rattle.flow.specs.Order.{RingAnswer, OrderAnswer};
ghost use Rattle.flow.specs.Sets.{Member};
ghost use Rattle.flow.specs.Tables.{table_rights};

use super::followers::follower_words;
use super::sets::{Device, Members, devices_of, lowest, minus, union, without};
use super::table::Table;
use arrayvec::ArrayVec;
use mesh::refusal::Refusal;
use mesh::row::Row;
use mesh::shape::Shape;

// The devices that wait for a device of the set.
fn waiting(words: &[u64; 64], left: u64) -> u64
    ensures sound { (b : ℕ) → Member b result → Waits words.now left b }
    ensures whole { (b : ℕ) → Waits words.now left b → Member b result }
{
    let mut waits = 0;
    for device in Members(left) {
        waits = union(waits, words[device.number]);
    }
    waits
}

// The lowest device that is left and waits for none.
fn next_device(words: &[u64; 64], left: u64) -> Option<Device>
    ensures value { NextOf words.now left result }
{
    lowest(minus(left, waiting(words, left)))
}

// The devices in flow order, or none where a ring stands.
fn listing<W>(table: &Table<W>) -> Option<ArrayVec<u8, 64>>
    ensures value { Listed (table_rights table.now) table.now.shape.devices result }
{
    let words = follower_words(table);
    let mut list = ArrayVec::new();
    let mut left = devices_of(table.shape);
    while left != 0 {
        let next = next_device(&words, left)?;
        left = without(left, next);
        list.push(next.number as u8);
    }
    Some(list)
}

// Whether a ring stands among the table's grants. Refused 4 where the rows are too few.
// Costs a follower table, and for each device one look at the followers of each.
pub fn ring_stands<W>(shape: Shape, rows: &[Row<W>]) -> Result<bool, Refusal>
    ensures cases { RingAnswer shape rows.now result }
{
    let table = Table::over(shape, rows)?;
    Ok(listing(&table).is_none())
}

// The devices in flow order at the front of the memory, and how many they are: at each position the lowest device
// not yet listed whose sources are all listed. Refused 4 where the rows or the memory are too short, then 14 while
// a ring stands; the memory is then unchanged, and past the devices always. Costs as much as `ring_stands`.
// The order is no list of its own: its memory is lent by the caller, a rule of the calls.
pub fn order<W>(shape: Shape, rows: &[Row<W>], memory: &mut [u8]) -> Result<usize, Refusal>
    ensures cases { OrderAnswer shape rows.now memory.old memory.new result }
{
    let table = Table::over(shape, rows)?;
    let devices = shape.devices();
    if memory.len() < devices {
        return Err(Refusal::ShortMemory);
    }
    let list = listing(&table).ok_or(Refusal::RingStands)?;
    memory[..devices].copy_from_slice(&list);
    Ok(devices)
}
