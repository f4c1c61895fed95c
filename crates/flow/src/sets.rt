// Sets of devices or points as words: all bit operations stand here.
ghost use Rattle.std.specs.Prelude.{◌≡◌, ℕ, ◌+◌, ◌-◌, ◌<◌, ◌≤◌, max, Bool, ◌==◌, ◌↔◌, MatchOption, count_ones};
ghost use Rattle.std.specs.Int.{bit_at, from_bool};
ghost use Rattle.flow.specs.Sets.{Member, IsLowest, has, set_of, count_of, meets};

use mesh::shape::Shape;

// A device by its number, which a set may have.
#[derive(Clone, Copy)]
pub(crate) struct Device {
    pub(crate) number: usize,
    ghost in_word: { number < 64 },
}

// Whether a device is a member. A set has no type of its own: the follower table and reach hand plain words out, by their rules.
pub(crate) fn member(set: u64, device: Device) -> bool
    ensures value { result ≡ has set device.number }
{
    (set >> device.number) & 1 == 1
}

// The set with one device more.
pub(crate) fn with(set: u64, device: Device) -> u64
    ensures members { (i : ℕ) → bit_at result i ≡ max (bit_at set i) (from_bool (i == device.number)) }
    ensures count { bit_at set device.number ≡ 0 → count_ones result ≡ count_ones set + 1 }
{
    set | (1 << device.number)
}

// The set without one device.
pub(crate) fn without(set: u64, device: Device) -> u64
    ensures members { (i : ℕ) → bit_at result i ≡ bit_at set i - from_bool (i == device.number) }
    ensures count { Member device.number set → count_ones result + 1 ≡ count_ones set }
{
    set & !(1 << device.number)
}

// The members of either set.
pub(crate) fn union(set: u64, other: u64) -> u64
    ensures members { (i : ℕ) → bit_at result i ≡ max (bit_at set i) (bit_at other i) }
{
    set | other
}

// The members of one set that are not in the other.
pub(crate) fn minus(set: u64, other: u64) -> u64
    ensures members { (i : ℕ) → bit_at result i ≡ bit_at set i - bit_at other i }
{
    set & !other
}

// Whether two sets have a member in common.
pub(crate) fn meet(set: u64, other: u64) -> bool
    ensures value { result ≡ meets set other }
{
    set & other != 0
}

// The lowest member, or none of the empty set.
pub(crate) fn lowest(set: u64) -> Option<Device>
    ensures cases { MatchOption result (set ≡ 0) (λ d. IsLowest set d.number) }
{
    if set == 0 {
        return None;
    }
    Some(Device {
        number: set.trailing_zeros() as usize,
    })
}

// The members of a set, the lowest first.
#[derive(Drop)]
pub(crate) struct Members(pub(crate) u64);

impl Iterator for Members {
    ghost use Rattle.std.specs.Iterator.{at_most};
    ghost use Rattle.flow.specs.Members.{TakesLowest};

    type Item = Device;

    ghost next_gives = { λ s r t. TakesLowest s.0 r t.0 };

    ghost remaining = { λ s. at_most (count_ones s.0) };

    fn next(&mut self) -> Option<Device> {
        let device = lowest(self.0)?;
        self.0 = without(self.0, device);
        Some(device)
    }
}

// The number of members.
pub(crate) fn count(set: u64) -> u32
    ensures value { result ≡ count_of (has set) 64 }
{
    set.count_ones()
}

// The set of a table's devices.
pub(crate) fn devices_of(shape: Shape) -> u64
    ensures members { (i : ℕ) → Member i result ↔ (i < shape.devices) }
    ensures count { count_ones result ≡ shape.devices }
{
    u64::MAX >> (64 - shape.devices())
}

// The set of those of the first n numbers that pass a test, which is asked once of each.
pub(crate) fn set_where<F: Fn(usize) -> bool>(n: usize, test: F) -> u64
    requires small { n ≤ 64 }
    requires callable { (i : ℕ) → i < n → F.pre test i }
    ensures value { (p : ℕ → Bool) → ((i : ℕ) (b : Bool) → i < n → F.post test i b → b ≡ p i)
        → result ≡ set_of p n }
{
    let mut set = 0;
    for i in 0..n {
        if test(i) {
            set |= 1 << i;
        }
    }
    set
}

// The set of those of the first n numbers that pass one test, and the set of those that pass another, in one pass: each test is
// asked once of each.
pub(crate) fn sets_where<F: Fn(usize) -> bool, G: Fn(usize) -> bool>(
    n: usize,
    one: F,
    other: G,
) -> (u64, u64)
    requires small { n ≤ 64 }
    requires callable { (i : ℕ) → i < n → F.pre one i × G.pre other i }
    ensures one { (p : ℕ → Bool) → ((i : ℕ) (b : Bool) → i < n → F.post one i b → b ≡ p i) → result.0 ≡ set_of p n }
    ensures other { (p : ℕ → Bool) → ((i : ℕ) (b : Bool) → i < n → G.post other i b → b ≡ p i) → result.1 ≡ set_of p n }
{
    let mut first = 0;
    let mut second = 0;
    for i in 0..n {
        if one(i) {
            first |= 1 << i;
        }
        if other(i) {
            second |= 1 << i;
        }
    }
    (first, second)
}
