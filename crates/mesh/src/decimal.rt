// Numbers as decimal text in lent memory.
ghost use Rattle.std.specs.Prelude.{decimal};
ghost use Rattle.mesh.specs.Kind.{Written};

use super::refusal::Refusal;
use itoa::Buffer;

// Puts the number's text, without leading zeros, at the front of the memory, and answers its length, 1 to 20; the
// bytes past it stay. Refused 4 where the memory is shorter, and then all of it stays. Time linear in the text.
pub(crate) fn write_decimal(n: u64, memory: &mut [u8]) -> Result<usize, Refusal>
    ensures cases { Written (decimal n) memory.old memory.new result }
{
    let mut buffer = Buffer::new();
    let text = buffer.format(n).as_bytes();
    // Not by `get_mut`: no proof was found for what the memory has then.
    if memory.len() < text.len() {
        return Err(Refusal::ShortMemory);
    }
    memory[..text.len()].copy_from_slice(text);
    Ok(text.len())
}
