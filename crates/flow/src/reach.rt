// Which devices the flow of one device comes to.
ghost use Rattle.flow.specs.Flow.{Rights};
ghost use Rattle.flow.specs.Followers.{Followers};
ghost use Rattle.flow.specs.Reach.{ReachAnswer, Reaches};
ghost use Rattle.flow.specs.Visit.{Visited};

use super::followers::follower_words;
use super::sets::{Device, Members, count, member, with};
use super::table::Table;
use mesh::refusal::Refusal;
use mesh::row::Row;
use mesh::shape::Shape;

// A set of devices, and how many they are.
#[derive(Clone, Copy, PartialEq, Eq, Debug)]
pub struct Reached {
    pub devices: u64,
    pub count: u32,
}

// Enters the followers of a device, and theirs, and so on; no device is entered twice, so the walk ends.
fn visit(words: &[u64; 64], entered: u64, device: Device) -> u64
    ensures value { Visited words.now entered device.number result }
{
    let mut seen = entered;
    for next in Members(words[device.number]) {
        if !member(seen, next) {
            seen = visit(words, with(seen, next), next);
        }
    }
    seen
}

// The devices that the flow of a device comes to, by the follower words.
fn reached_from(words: &[u64; 64], device: Device) -> Reached
    ensures value { (g : Rights) → Followers g words.now → Reaches g device.number result }
{
    let devices = visit(words, 0, device);
    Reached {
        devices,
        count: count(devices),
    }
}

// The devices that the flow of a device comes to in one or more steps, and their number: the device itself is
// among them where it lies on a ring. Refused 4 where the rows are too few, then 8 outside the table.
// Costs a follower table, and one look at each follower of each device entered.
pub fn reach<W>(shape: Shape, rows: &[Row<W>], device: u8) -> Result<Reached, Refusal>
    ensures cases { ReachAnswer shape rows.now device result }
{
    let table = Table::over(shape, rows)?;
    let number = usize::from(device);
    if number >= shape.devices() {
        return Err(Refusal::OutsideTable);
    }
    let words = follower_words(&table);
    Ok(reached_from(&words, Device { number }))
}
