// The answer of `floworder`: the device order of a grant file, or why there is none.
ghost use Rattle.std.specs.Prelude.{◌≡◌, length, IfOk, string_bytes};
ghost use Rattle.report.specs.Answers.{Answered, Printed, file_of, is_named_peak, line_of};

use super::lines::{Order, Refused};
use arrayvec::ArrayVec;
use flow::order::order;
use grantfile::reading::read;
use mesh::peak::Peak;
use mesh::row::Row;
use mesh::sum::Sum;
use mesh::weight::Weight;
use std::alloc::{AllocError, Global};

// How many bytes of an input count as the file.
pub const MOST_BYTES: usize = 65536;

// As many rows as the largest table has.
const MOST_ROWS: usize = 64 * 64;

// The device order of a file of the kind `W`, whose grants fill the lent rows, or why there is none.
fn device_order<W: Weight>(file: &[u8], rows: &mut [Row<W>]) -> Result<Order, Refused>
    requires { length rows.old ≡ MOST_ROWS }
    ensures answered { Answered W.Weight.meaning file.now (line_of result) }
{
    let shape = read(file, rows)?;
    let mut devices = ArrayVec::from([0; 64]);
    let count = order(shape, rows, &mut devices)?;
    devices.truncate(count);
    Ok(Order { devices })
}

// The line on a file of the kind `W`.
fn answer<W: Weight>(heap: Global, file: &[u8]) -> Result<String, AllocError>
    ensures made { IfOk result (λ t. Answered W.Weight.meaning file.now (string_bytes t)) }
{
    let mut rows = vec![in heap; Row::<W>::empty(); MOST_ROWS]?;
    match device_order(file, &mut rows) {
        Ok(order) => order.to_string(heap),
        Err(refused) => refused.to_string(heap),
    }
}

// The part of the input that counts as the file.
fn file_part(input: &[u8]) -> &[u8]
    ensures value { result.now ≡ file_of input.now }
{
    &input[..input.len().min(MOST_BYTES)]
}

// Whether the file's second byte is the number of peak.
fn names_peak(file: &[u8]) -> bool
    ensures value { result ≡ is_named_peak file.now }
{
    file.get(1) == Some(&Peak::kind())
}

// All the bytes that `floworder` prints for its input: `order` and the devices in flow order, or `refused`, the
// refusal's number and the byte place. The first 65,536 bytes count as the file, and its second byte names the kind:
// 2 is peak, and anything else is read as sum. Fails only for want of memory. Costs one pass over the file and
// the rows of the largest table, and as much as an order.
pub fn flow_order(heap: Global, input: &[u8]) -> Result<String, AllocError>
    ensures made { IfOk result (λ t. Printed input.now (string_bytes t)) }
{
    let file = file_part(input);
    if names_peak(file) {
        answer::<Peak>(heap, file)
    } else {
        answer::<Sum>(heap, file)
    }
}
