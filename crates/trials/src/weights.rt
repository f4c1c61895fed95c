// The weight kinds on examples.
use super::steps::Steps;
use mesh::peak::Peak;
use mesh::refusal::Refusal;
use mesh::right::Right;
use mesh::sum::Sum;
use mesh::weight::Weight;
use std::process::Abort;
use std::test::Fail;

// The amount of the weight that the kind makes, or the number of its refusal, as it is reported.
fn making<W: Weight>(amount: u32) -> Result<u32, u8> {
    W::make(amount).map(W::amount).map_err(Refusal::number)
}

// Checks the text's length, and the memory after it was written there.
fn writes<W: Weight>(
    rt: &impl Abort,
    weight: W,
    len: usize,
    expected: &[u8; 14],
) -> Result<(), Fail> {
    let mut memory = *b"..............";
    assert_eq!(rt; weight.text(&mut memory)?, len);
    assert_eq!(rt; memory, *expected);
    Ok(())
}

fn admits_to_a_million<W: Weight>(rt: &impl Abort) {
    assert_eq!(rt; making::<W>(0), Err(10));
    assert_eq!(rt; making::<W>(1), Ok(1));
    assert_eq!(rt; making::<W>(1_000_000), Ok(1_000_000));
    assert_eq!(rt; making::<W>(1_000_001), Err(10));
}

#[test]
fn sum_and_peak_admit_to_a_million(rt: HostRuntime) {
    admits_to_a_million::<Sum>(&rt);
    admits_to_a_million::<Peak>(&rt);
}

#[test]
fn sum_is_held(rt: HostRuntime) {
    let large = Sum { value: u64::MAX };
    let most = Sum { value: 1 << 40 };
    assert_eq!(rt; Sum { value: 2 }.join(Sum { value: 3 }), Sum { value: 5 });
    assert_eq!(rt; Sum { value: 1 }.join(large), most);
    assert!(rt; large.at_most(most));
    assert_eq!(rt; large.amount(), 0);
}

#[test]
fn peak_counts_as_it_is(rt: HostRuntime) -> Result<(), Fail> {
    let large = Peak { value: u32::MAX };
    assert_eq!(rt;
        Peak { value: 3 }.join(Peak { value: 2 }),
        Peak { value: 3 }
    );
    assert_eq!(rt; Peak { value: 1 }.join(large), large);
    assert_eq!(rt; large.amount(), 0);
    writes(&rt, large, 10, b"4294967295....")
}

#[test]
fn texts_are_decimal(rt: HostRuntime) -> Result<(), Fail> {
    writes(&rt, Sum::zero(), 1, b"0.............")?;
    writes(&rt, Peak { value: 1_000_000 }, 7, b"1000000.......")?;
    writes(&rt, Sum { value: u64::MAX }, 13, b"1099511627776.")
}

#[test]
fn short_memory_stays(rt: HostRuntime) {
    let mut memory = *b"......";
    assert_eq!(rt;
        Sum { value: 1_000_000 }.text(&mut memory),
        Err(Refusal::ShortMemory)
    );
    assert_eq!(rt;
        Peak { value: 1_000_000 }.text(&mut memory),
        Err(Refusal::ShortMemory)
    );
    assert_eq!(rt; memory, *b"......");
    assert_eq!(rt; Refusal::ShortMemory.number(), 4);
}

#[test]
fn a_kind_of_its_own(rt: HostRuntime) -> Result<(), Fail> {
    assert_eq!(rt; making::<Steps>(9), Ok(9));
    assert_eq!(rt; making::<Steps>(10), Err(10));
    assert_eq!(rt; making::<Steps>(20), Ok(20));
    let low = Steps { height: 3 };
    let high = Steps { height: 21 };
    assert_eq!(rt; low.join(high), high);
    assert_eq!(rt; high.join(Steps { height: 25 }), high);
    assert!(rt; Steps { height: 25 }.at_most(high));
    writes(&rt, high, 1, b"c.............")
}

#[test]
fn letters_are_rights(rt: HostRuntime) {
    assert_eq!(rt; Right::try_from(b'r'), Ok(Right::Read));
    assert_eq!(rt; Right::try_from(b'a'), Ok(Right::Append));
    assert_eq!(rt; Right::try_from(b'w'), Ok(Right::Both));
    assert_eq!(rt; Right::try_from(b'e'), Err(Refusal::WrongRight));
    assert_eq!(rt; Right::of_grant(b'r'), Some(Right::Read));
    assert_eq!(rt; Right::of_grant(b'a'), Some(Right::Append));
    assert_eq!(rt; Right::of_grant(b'w'), Some(Right::Both));
    assert_eq!(rt; Right::of_grant(b'e'), None);
    assert_eq!(rt; Right::Append.letter(), b'a');
}
