// The follower table: for each device the set of its followers.
ghost use Rattle.std.specs.Prelude.{◌≡◌, ℕ, ◌<◌, ◌≤◌, slice_index};
ghost use Rattle.flow.specs.Followers.{Followers, FollowerTable};
ghost use Rattle.flow.specs.Sets.{set_of};
ghost use Rattle.flow.specs.Tables.{table_rights};
ghost use Rattle.flow.specs.Touched.{feeds};

use super::sets::set_where;
use super::table::Table;
use super::touched::Touched;
use mesh::refusal::Refusal;
use mesh::row::Row;
use mesh::shape::Shape;

// The followers of one device, by what each touches.
fn follower_word(touched: &[Touched; 64], devices: usize, from: usize) -> u64
    requires { (devices ≤ 64) × (from < 64) }
    ensures value { result ≡ set_of (feeds touched.now from) devices }
{
    set_where(
        devices,
        |to| from != to && touched[from].flows_into(touched[to]),
    )
}

// The follower words of a table. It goes over the table's devices alone: `array::from_fn` would go over all 64.
pub(crate) fn follower_words<W>(table: &Table<W>) -> [u64; 64]
    ensures value { Followers (table_rights table.now) result }
    ensures past { (a : ℕ) → table.now.shape.devices ≤ a → slice_index result a ≡ 0 }
{
    let devices = table.shape.devices();
    let touched = table.each_touched();
    let mut words = [0; 64];
    for from in 0..devices {
        words[from] = follower_word(&touched, devices, from);
    }
    words
}

// The follower table beside 0; or, where the rows lent are fewer than the table has, 64 zeros beside 4.
// Costs one pass over the rows, and one look at each pair of devices. The answer is no `Result`: that the words come whole, beside
// 0 or 4, is the rule of this call.
pub fn followers<W>(shape: Shape, rows: &[Row<W>]) -> ([u64; 64], u8)
    ensures value { FollowerTable shape rows.now result }
{
    match Table::over(shape, rows) {
        Ok(table) => (follower_words(&table), 0),
        Err(refusal) => ([0; 64], refusal.number()),
    }
}
