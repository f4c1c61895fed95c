// Tables of rows: followers, reach, rings and orders, up to 64 devices.
use flow::followers::followers;
use flow::order::{order, ring_stands};
use flow::reach::{Reached, reach};
use mesh::refusal::Refusal;
use mesh::right::Right;
use mesh::row::Row;
use mesh::shape::Shape;
use mesh::sum::Sum;
use std::array;
use std::test::Fail;

// 64 devices with an inbox each: a device reads its own, and appends to that of the next one.
fn line() -> [Row<Sum>; 4096] {
    array::from_fn(|row| match (row / 64, row % 64) {
        (device, point) if point == device => Row::grant(Right::Read, Sum { value: 1 }),
        (device, point) if point == device + 1 => Row::grant(Right::Append, Sum { value: 1 }),
        _ => Row::empty(),
    })
}

#[test]
fn a_line_of_64(rt: HostRuntime) -> Result<(), Fail> {
    let shape = Shape::new(64, 64)?;
    let rows = line();
    let (words, number) = followers(shape, &rows);
    assert_eq!(rt; number, 0);
    assert_eq!(rt; words[0], 2);
    assert_eq!(rt; words[62], 1 << 63);
    assert_eq!(rt; words[63], 0);
    assert_eq!(rt;
        reach(shape, &rows, 0),
        Ok(Reached {
            devices: u64::MAX - 1,
            count: 63,
        })
    );
    assert_eq!(rt; ring_stands(shape, &rows), Ok(false));
    let mut memory = [99; 65];
    assert_eq!(rt; order(shape, &rows, &mut memory), Ok(64));
    assert_eq!(rt; memory[0], 0);
    assert_eq!(rt; memory[63], 63);
    assert_eq!(rt; memory[64], 99);
    Ok(())
}

#[test]
fn the_line_closed_to_a_ring(rt: HostRuntime) -> Result<(), Fail> {
    let shape = Shape::new(64, 64)?;
    let mut rows = line();
    rows[64 * 63] = Row::grant(Right::Append, Sum { value: 1 });
    assert_eq!(rt; ring_stands(shape, &rows), Ok(true));
    assert_eq!(rt;
        reach(shape, &rows, 40),
        Ok(Reached {
            devices: u64::MAX,
            count: 64,
        })
    );
    let mut memory = [99; 64];
    assert_eq!(rt; order(shape, &rows, &mut memory), Err(Refusal::RingStands));
    assert_eq!(rt; memory, [99; 64]);
    Ok(())
}

#[test]
fn refusals_of_a_table(rt: HostRuntime) -> Result<(), Fail> {
    assert!(rt; Shape::new(65, 1).is_err());
    let shape = Shape::new(2, 2)?;
    let rows = [Row::<Sum>::empty(); 3];
    assert_eq!(rt; followers(shape, &rows), ([0; 64], 4));
    assert_eq!(rt; reach(shape, &rows, 9), Err(Refusal::ShortMemory));
    assert_eq!(rt; ring_stands(shape, &rows), Err(Refusal::ShortMemory));
    let rows = [Row::<Sum>::empty(); 4];
    assert_eq!(rt; reach(shape, &rows, 2), Err(Refusal::OutsideTable));
    let mut memory = [99; 1];
    assert_eq!(rt; order(shape, &rows, &mut memory), Err(Refusal::ShortMemory));
    assert_eq!(rt; memory, [99; 1]);
    Ok(())
}
