// Grant files, whole and damaged: the faults that the reader finds, and what `floworder` answers.
use grantfile::entries::entry;
use grantfile::fault::{Fault, Layer};
use grantfile::file::GrantFile;
use grantfile::reading::read;
use mesh::refusal::Refusal;
use mesh::right::Right;
use mesh::row::Row;
use mesh::sum::Sum;
use report::flow_order::flow_order;
use std::test::Fail;

// Two devices and two points, each device a source of the other.
const RING: &[u8; 34] =
    b"G\x01\x02\x02\x00\x0a\x02\x00\x16\x02\x00r\x00\x00\x00\x05\x01a\x00\x00\x00\x03\x00a\x00\x00\x00\x04\x01r\x00\x00\x00\x09";

// Faults 1 to 10 in checking order, each with its layer and place; the rows lent, all with w, stay as they were.
#[test]
fn each_fault_has_its_place_and_layer(rt: HostRuntime) {
    let cases: [(&[u8], usize, Layer, Refusal, usize); 16] = [
        (b"G\x01\x02", 4, Layer::Head, Refusal::ShortFile, 3),
        (b"H\x02\x00\x00", 4, Layer::Head, Refusal::WrongHead, 0),
        (b"G\x02\x00\x00", 4, Layer::Head, Refusal::WrongHead, 1),
        (b"G\x01\x00\x41", 4, Layer::Head, Refusal::WrongSize, 2),
        (b"G\x01\x40\x41", 4, Layer::Head, Refusal::WrongSize, 3),
        (b"G\x01\x02\x02", 3, Layer::Rows, Refusal::ShortMemory, 0),
        (
            b"G\x01\x02\x02\x00\x0a\x00\x00\x0a",
            4,
            Layer::Contents,
            Refusal::ShortContents,
            9,
        ),
        (
            b"G\x01\x02\x02\x00\x0b\x00\x00\x0a\x00",
            4,
            Layer::Contents,
            Refusal::WrongStart,
            4,
        ),
        (
            b"G\x01\x02\x02\x00\x0a\x01\x00\x0a\x00",
            4,
            Layer::Contents,
            Refusal::WrongStart,
            7,
        ),
        (
            b"G\x01\x02\x02\x00\x0a\x00\x00\x0a\x01",
            4,
            Layer::Contents,
            Refusal::WrongEnd,
            10,
        ),
        (
            b"G\x01\x02\x02\x00\x0a\x00\x00\x0a\x00\xff",
            4,
            Layer::Contents,
            Refusal::WrongEnd,
            10,
        ),
        (
            b"G\x01\x01\x02\x00\x07\x01\x02r\x00\x00\x00\x05",
            4,
            Layer::Body,
            Refusal::OutsideTable,
            7,
        ),
        (
            b"G\x01\x01\x02\x00\x07\x02\x01r\x00\x00\x00\x05\x01r\x00\x00\x00\x05",
            4,
            Layer::Body,
            Refusal::OutsideTable,
            13,
        ),
        (
            b"G\x01\x01\x02\x00\x07\x02\x00r\x00\x00\x00\x00\x00x\x00\x00\x00\x00",
            4,
            Layer::Weight,
            Refusal::WrongAmount,
            9,
        ),
        (
            b"G\x01\x01\x02\x00\x07\x02\x00r\x00\x0f\x42\x40\x01e\x00\x00\x00\x00",
            4,
            Layer::Body,
            Refusal::WrongRight,
            14,
        ),
        (
            b"G\x01\x01\x02\x00\x07\x02\x00r\x00\x0f\x42\x40\x01w\x00\x0f\x42\x41",
            4,
            Layer::Weight,
            Refusal::WrongAmount,
            15,
        ),
    ];
    for (file, lent, layer, why, place) in cases {
        let mut rows = [Row::grant(Right::Both, Sum { value: 7 }); 4];
        assert!(rt; lent <= 4);
        let found = read(file, &mut rows[..lent]).err();
        assert_eq!(rt; found, Some(Fault { why, place, layer }), "{file:?}");
        for row in &rows {
            assert_eq!(rt; row.right, Right::Both);
            assert_eq!(rt; row.weight, Sum { value: 7 });
        }
    }
}

#[test]
fn grants_fill_their_rows_and_no_others(rt: HostRuntime) -> Result<(), Fail> {
    let mut rows = [Row::grant(Right::Both, Sum { value: 7 }); 5];
    let shape = read(
        b"G\x01\x02\x02\x00\x0a\x01\x00\x10\x00\x01a\x00\x00\x00\x03",
        &mut rows,
    )?;
    assert_eq!(rt; shape.rows(), 4);
    assert_eq!(rt; rows[0].right, Right::Empty);
    assert_eq!(rt; rows[1].right, Right::Append);
    assert_eq!(rt; rows[1].weight, Sum { value: 3 });
    assert_eq!(rt; rows[2].right, Right::Empty);
    assert_eq!(rt; rows[3].right, Right::Empty);
    assert_eq!(rt; rows[4].right, Right::Both);
    Ok(())
}

#[test]
fn bodies_are_parts_of_the_file(rt: HostRuntime) -> Result<(), Fail> {
    let file = GrantFile::open(1, RING)?;
    let body = file.body(1)?;
    assert_eq!(rt; body.place, 22);
    assert_eq!(rt;
        body.bytes,
        b"\x00a\x00\x00\x00\x04\x01r\x00\x00\x00\x09".as_slice()
    );
    let outside = Fault {
        why: Refusal::OutsideTable,
        place: 0,
        layer: Layer::Body,
    };
    assert_eq!(rt; file.body(2).err(), Some(outside));
    Ok(())
}

#[test]
fn an_entry_and_what_follows(rt: HostRuntime) {
    assert_eq!(rt; entry(b"\x01\x02\x03\x04"), (258, 3, b"\x04".as_slice()));
    assert_eq!(rt; entry(b"\x01\x02"), (0, 0, b"".as_slice()));
}

#[test]
fn floworder_answers(rt: HostRuntime) -> Result<(), Fail> {
    let cases: [(&[u8], &str); 5] = [
        (RING, "refused 14 0\n"),
        (b"", "refused 1 0\n"),
        (b"G\x03\x01\x01", "refused 2 1\n"),
        (
            b"G\x02\x01\x01\x00\x07\x01\x00w\x00\x00\x00\x05",
            "order 0\n",
        ),
        (b"G\x01\x02\x02\x00\x0a\x00\x00\x0a\x00", "order 0 1\n"),
    ];
    for (input, expected) in cases {
        let text = flow_order(rt.alloc(), input)?;
        assert_eq!(rt; text.as_str(), expected, "{input:?}");
    }
    Ok(())
}

// The small files of examples/, byte by byte.
#[test]
fn floworder_answers_the_examples(rt: HostRuntime) -> Result<(), Fail> {
    let examples: [(&str, &[u8], &str); 11] = [
        (
            "line.grant",
            b"G\x01\x03\x02\x00\x0d\x02\x00\x19\x01\x00\x1f\x01\x00r\x00\x00\x00\x05\x01a\x00\x00\x00\x03\x01r\x00\x00\x00\x04\x00a\x00\x00\x00\x09",
            "order 2 0 1\n",
        ),
        (
            "tree.grant",
            b"G\x01\x07\x07\x00\x19\x01\x00\x1f\x02\x00\x2b\x02\x00\x37\x01\x00\x3d\x01\x00\x43\x01\x00\x49\x01\x00r\x00\x00\x00\x32\x00a\x00\x00\x00\x0a\x01r\x00\x00\x00\x32\x00a\x00\x00\x00\x14\x02r\x00\x00\x00\x32\x01a\x00\x00\x00\x1e\x01a\x00\x00\x00\x28\x02a\x00\x00\x00\x32\x02a\x00\x00\x00\x3c",
            "order 3 4 1 5 6 2 0\n",
        ),
        (
            "peak.grant",
            b"G\x02\x03\x02\x00\x0d\x01\x00\x13\x01\x00\x19\x02\x01r\x00\x0f\x42\x40\x00a\x00\x00\x00\x01\x00r\x00\x00\x00\x07\x01a\x00\x00\x00\x07",
            "order 1 2 0\n",
        ),
        (
            "own.grant",
            b"G\x01\x01\x01\x00\x07\x01\x00w\x00\x00\x00\x05",
            "order 0\n",
        ),
        (
            "shared.grant",
            b"G\x01\x02\x01\x00\x0a\x01\x00\x10\x01\x00w\x00\x00\x00\x07\x00w\x00\x00\x00\x02",
            "refused 14 0\n",
        ),
        (
            "mutual.grant",
            b"G\x01\x03\x03\x00\x0d\x02\x00\x19\x02\x00\x25\x01\x00r\x00\x00\x00\x08\x01a\x00\x00\x00\x02\x00a\x00\x00\x00\x02\x01r\x00\x00\x00\x08\x00a\x00\x00\x00\x06",
            "refused 14 0\n",
        ),
        (
            "broken.grant",
            b"G\x01\x02\x02\x00\x0a\x02\x00\x16\x02\x00r\x00\x00\x00\x05\x01a\x00\x00\x00\x03\x00a\x00\x00\x00\x04\x01\x78\x00\x00\x00\x09",
            "refused 9 29\n",
        ),
        (
            "unknown.grant",
            b"G\x03\x01\x01\x00\x07\x01\x00r\x00\x00\x00\x05",
            "refused 2 1\n",
        ),
        (
            "amount.grant",
            b"G\x01\x02\x01\x00\x0a\x01\x00\x10\x01\x00a\x00\x0f\x42\x40\x00r\x00\x0f\x42\x41",
            "refused 10 18\n",
        ),
        (
            "twice.grant",
            b"G\x01\x01\x02\x00\x07\x02\x00r\x00\x00\x00\x05\x00a\x00\x00\x00\x03",
            "refused 8 13\n",
        ),
        (
            "cut.grant",
            b"G\x01\x03\x02\x00\x0d\x02\x00\x19\x01\x00\x1f\x01\x00r\x00\x00\x00\x05\x01a\x00\x00\x00\x03\x01r\x00\x00\x00\x04\x00a\x00",
            "refused 7 34\n",
        ),
    ];
    for (name, file, expected) in examples {
        let text = flow_order(rt.alloc(), file)?;
        assert_eq!(rt; text.as_str(), expected, "{name}");
    }
    Ok(())
}

// The ring's file, and then zeros to a length of 70,000.
#[test]
fn a_long_input_is_cut(rt: HostRuntime) -> Result<(), Fail> {
    let mut input = RING.to_vec(rt.alloc())?;
    input.resize(70_000, 0)?;
    let text = flow_order(rt.alloc(), &input)?;
    assert_eq!(rt; text.as_str(), "refused 7 34\n");
    Ok(())
}
