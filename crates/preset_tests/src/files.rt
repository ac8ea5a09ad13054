use crate::samples::{Case, Outcome, PAIR, STANDARD, built, check_cases, named, outcome};
use preset::{Place, Preset, PresetNumber, read};
use std::alloc::{AllocError, Global};
use std::test::Fail;

// Of the file of one preset.
const HEADER: [Case; 14] = [
    (&[(5, 39)], Ok(()), "as it was"),
    (&[(5, 38)], Err((1, None)), "a length that is one less"),
    (&[(5, 40)], Err((1, None)), "one more"),
    (&[(4, 1)], Err((1, None)), "256 more"),
    (
        &[(0, 2), (5, 40)],
        Err((1, None)),
        "the length before the version",
    ),
    (&[(0, 0)], Err((2, None)), "version 0"),
    (&[(0, 2)], Err((2, None)), "version 2"),
    (
        &[(0, 2), (1, 0)],
        Err((2, None)),
        "the version before the count",
    ),
    (&[(1, 0)], Err((3, None)), "no presets"),
    (&[(1, 2)], Err((3, None)), "entries past the end"),
    (&[(3, 5)], Err((3, None)), "entries at 5"),
    (&[(3, 7)], Err((3, None)), "entries at 7"),
    (&[(2, 1)], Err((3, None)), "entries at 262"),
    (
        &[(3, 7), (6, 0)],
        Err((3, None)),
        "the offset before the number",
    ),
];

const ENTRY: [Case; 18] = [
    (&[(6, 0)], Err((4, Some(1))), "number 0"),
    (&[(6, 255)], Ok(()), "number 255"),
    (
        &[(6, 0), (9, 0)],
        Err((4, Some(1))),
        "the number before the name",
    ),
    (&[(9, 0)], Err((5, Some(1))), "no name"),
    (&[(9, 9)], Err((5, Some(1))), "a name past the end"),
    (&[(9, 7)], Err((5, Some(1))), "a byte left over"),
    (&[(8, 30)], Err((5, Some(1))), "a name too early"),
    (&[(8, 32)], Err((5, Some(1))), "a name too late"),
    (&[(7, 1)], Err((5, Some(1))), "a name 256 too late"),
    (&[(31, 32)], Ok(()), "a name that begins with byte 32"),
    (&[(31, 31)], Err((5, Some(1))), "with byte 31"),
    (&[(38, 126)], Ok(()), "a name that ends with byte 126"),
    (&[(38, 127)], Err((5, Some(1))), "with byte 127"),
    (
        &[(31, 127), (10, 251)],
        Err((5, Some(1))),
        "the name before the rows",
    ),
    (&[(10, 250)], Ok(()), "top 250 in O"),
    (&[(10, 251)], Err((6, Some(1))), "top 251 in O"),
    (&[(19, 61)], Err((6, Some(1))), "fall 61 in M"),
    (&[(30, 0)], Err((6, Some(1))), "rlow 0 in U"),
];

// Of the file of two presets.
const ENTRIES: [Case; 8] = [
    (&[(31, 4)], Ok(()), "number 4 after 3"),
    (&[(31, 3)], Err((4, Some(2))), "3 after 3"),
    (&[(31, 2)], Err((4, Some(2))), "2 after 3"),
    (&[(33, 56)], Err((5, Some(2))), "names that overlap"),
    (&[(34, 1)], Err((5, Some(2))), "a byte left over"),
    (&[(35, 251)], Err((6, Some(2))), "top 251 in the second O"),
    (
        &[(10, 251), (31, 0)],
        Err((6, Some(1))),
        "entry 1 before entry 2",
    ),
    (
        &[(55, 0), (34, 1)],
        Err((6, Some(2))),
        "rows before left-over bytes",
    ),
];

#[test]
fn each_refusal_in_its_order(rt: HostRuntime) -> Result<(), Fail> {
    let heap = rt.alloc();
    check_cases(heap, &STANDARD, &HEADER)?;
    check_cases(heap, &STANDARD, &ENTRY)?;
    check_cases(heap, &PAIR, &ENTRIES)
}

// The first bytes of the file of one preset, with their number as its length.
fn cut(heap: Global, length: u8) -> Result<Outcome, AllocError> {
    let mut file = STANDARD
        .iter()
        .copied()
        .take(usize::from(length))
        .collect::<Vec<u8>>(heap)?;
    if let Some(b) = file.get_mut(5) {
        *b = length;
    }
    Ok(outcome(file.as_slice()))
}

#[test]
fn short_inputs(rt: HostRuntime) -> Result<(), Fail> {
    let heap = rt.alloc();
    assert_eq!(rt; outcome(&[]), Err((1, None)));
    assert_eq!(rt; cut(heap, 5)?, Err((1, None)));
    assert_eq!(rt; cut(heap, 6)?, Err((3, None)), "a header with no entry");
    assert_eq!(rt;
        cut(heap, 30)?,
        Err((3, None)),
        "an entry that lacks a byte"
    );
    assert_eq!(rt;
        cut(heap, 31)?,
        Err((5, Some(1))),
        "an entry with no name behind it"
    );
    assert_eq!(rt;
        cut(heap, 38)?,
        Err((5, Some(1))),
        "a name that lacks a byte"
    );
    assert_eq!(rt; cut(heap, 39)?, Ok(()));
    Ok(())
}

#[test]
fn the_count_is_1_to_32(rt: HostRuntime) -> Result<(), Fail> {
    let heap = rt.alloc();
    assert_eq!(rt; outcome(built(heap, 1)?.as_slice()), Ok(()));
    assert_eq!(rt; outcome(built(heap, 32)?.as_slice()), Ok(()));
    assert_eq!(rt; outcome(built(heap, 33)?.as_slice()), Err((3, None)));
    Ok(())
}

#[test]
fn a_name_has_1_to_24_bytes(rt: HostRuntime) -> Result<(), Fail> {
    let heap = rt.alloc();
    assert_eq!(rt; outcome(named(heap, 0)?.as_slice()), Err((5, Some(1))));
    assert_eq!(rt; outcome(named(heap, 1)?.as_slice()), Ok(()));
    assert_eq!(rt; outcome(named(heap, 24)?.as_slice()), Ok(()));
    assert_eq!(rt; outcome(named(heap, 25)?.as_slice()), Err((5, Some(1))));
    Ok(())
}

#[test]
fn a_preset_is_found_by_its_number(rt: HostRuntime) -> Result<(), Fail> {
    let file = read(&PAIR)?;
    assert_eq!(rt; file.presets().as_slice().len(), 2);
    for number in [0, 1, 2, 4, 199, 201, 255] {
        assert!(rt; file.lookup(PresetNumber { value: number }).is_none());
    }
    let first = file
        .lookup(PresetNumber { value: 3 })
        .ok_or("3 is not found")?;
    assert!(rt; file.name(&first) == Some(b"A"));
    let found = file
        .lookup(PresetNumber { value: 200 })
        .ok_or("200 is not found")?;
    assert_eq!(rt; found.number.value, 200);
    assert_eq!(rt; found.name.offset, 57);
    assert_eq!(rt; found.name.length, 2);
    assert!(rt; file.name(&found) == Some(b"BC"));
    assert_eq!(rt; found.rows.u.numbers(), [45, 45, 1, 45, 1, 1, 1]);
    Ok(())
}

// Places in the file of one preset, and what stands there.
const PLACES: [(usize, usize, Option<&[u8]>); 5] = [
    (31, 8, Some(b"Standard")),
    (31, 9, None),
    (39, 0, Some(b"")),
    (40, 0, None),
    (usize::MAX, usize::MAX, None),
];

#[test]
fn a_name_outside_the_file_is_nothing(rt: HostRuntime) -> Result<(), Fail> {
    let file = read(&STANDARD)?;
    let mut preset = Preset::pzb90();
    for (offset, length, name) in PLACES {
        preset.name = Place { offset, length };
        assert!(rt; file.name(&preset) == name);
    }
    Ok(())
}
