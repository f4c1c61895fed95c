// An entry of a file's contents.
ghost use Rattle.grantfile.specs.Reading.{EntryRead};

// The start and the count of the contents entry at the front of the bytes, and the bytes that follow it;
// from fewer than three bytes zeros and no bytes, and no `Option`: the rule of this call. Constant time.
pub fn entry(bytes: &[u8]) -> (u16, u8, &[u8])
    ensures cases { EntryRead bytes.now result.0 result.1 result.2.now }
{
    match bytes {
        [high, low, count, rest @ ..] => (u16::from_be_bytes([*high, *low]), *count, rest),
        _ => (0, 0, &[]),
    }
}
