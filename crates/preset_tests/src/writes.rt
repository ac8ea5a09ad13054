use crate::samples::{PAIR, Refused, STANDARD, known_by};
use preset::{Place, Preset, PresetNumber, read, write};
use std::alloc::{AllocError, Global};
use std::test::Fail;

// A preset with the PZB 90 rows.
fn preset(number: u8, offset: usize, length: usize) -> Preset {
    Preset {
        number: PresetNumber { value: number },
        name: Place { offset, length },
        rows: Preset::pzb90().rows,
    }
}

// What the writer answers: the file's length, or what its refusal is known by.
type Answer = Result<usize, Refused>;

// What the writer answers of presets over a text, in a buffer of `room` sevens. Where it refuses, these are still there.
fn written(heap: Global, presets: &[Preset], text: &[u8], room: usize) -> Result<Answer, Fail> {
    let mut buffer = vec![in heap; 7u8; room]?;
    let answer = write(presets, text, buffer.as_mut_slice());
    if answer.is_err() && buffer.iter().any(|b| *b != 7) {
        return Err(Fail::new("a refusal wrote into the buffer"));
    }
    Ok(answer.map_err(known_by))
}

// The presets 1 to `count`, each named by the first bytes of the text.
fn many(heap: Global, count: u8, length: usize) -> Result<Vec<Preset>, AllocError> {
    (1..=count)
        .map(|number| preset(number, 0, length))
        .collect(heap)
}

#[test]
fn the_pzb90_preset_is_written(rt: HostRuntime) {
    let mut buffer = [7u8; 41];
    assert!(rt; write(&[Preset::pzb90()], &Preset::PZB90_NAME, &mut buffer) == Ok(39));
    let (file, behind) = buffer.split_at(39);
    assert!(rt; file == STANDARD.as_slice());
    assert!(rt; behind == [7, 7].as_slice());
}

#[test]
fn what_was_read_is_written_again(rt: HostRuntime) -> Result<(), Fail> {
    let file = read(&PAIR)?;
    let presets = file.presets();
    let mut buffer = [7u8; 59];
    assert!(rt; write(presets.as_slice(), &PAIR, &mut buffer) == Ok(59));
    assert!(rt; &buffer == &PAIR);
    Ok(())
}

#[test]
fn the_count_is_1_to_32(rt: HostRuntime) -> Result<(), Fail> {
    let heap = rt.alloc();
    assert_eq!(rt; written(heap, &[], b"A", 2000)?, Err((3, None)));
    let over = many(heap, 33, 24)?;
    assert_eq!(rt;
        written(heap, over.as_slice(), b"abcdefghijklmnopqrstuvwx", 2000)?,
        Err((3, None))
    );
    Ok(())
}

#[test]
fn the_largest_file_is_read(rt: HostRuntime) -> Result<(), Fail> {
    let most = many(rt.alloc(), 32, 24)?;
    let mut buffer = [7u8; 1574];
    assert!(rt; write(most.as_slice(), b"abcdefghijklmnopqrstuvwx", &mut buffer) == Ok(1574));
    let file = read(&buffer)?;
    assert_eq!(rt; file.presets().as_slice().len(), 32);
    let last = file
        .lookup(PresetNumber { value: 32 })
        .ok_or("32 is not found")?;
    assert_eq!(rt; last.name.offset, 1550);
    assert!(rt; file.name(&last) == Some(b"abcdefghijklmnopqrstuvwx"));
    Ok(())
}

// Two numbers, one after the other.
const NUMBERS: [(u8, u8, Answer); 4] = [
    (0, 1, Err((4, Some(1)))),
    (254, 255, Ok(58)),
    (8, 8, Err((4, Some(2)))),
    (8, 7, Err((4, Some(2)))),
];

#[test]
fn numbers_rise(rt: HostRuntime) -> Result<(), Fail> {
    for (first, second, answer) in NUMBERS {
        assert_eq!(rt;
            written(
                rt.alloc(),
                &[preset(first, 0, 1), preset(second, 0, 1)],
                b"A",
                99,
            )?,
            answer
        );
    }
    assert_eq!(rt;
        written(rt.alloc(), &[preset(0, 0, 0)], b"A", 99)?,
        Err((4, Some(1))),
        "the number before the name"
    );
    Ok(())
}

// Places in a text of 26 bytes.
const PLACES: [(usize, usize, Answer); 8] = [
    (0, 0, Err((5, Some(1)))),
    (0, 1, Ok(32)),
    (0, 24, Ok(55)),
    (0, 25, Err((5, Some(1)))),
    (25, 1, Ok(32)),
    (25, 2, Err((5, Some(1)))),
    (26, 1, Err((5, Some(1)))),
    (usize::MAX, 24, Err((5, Some(1)))),
];

#[test]
fn names_are_places_in_the_text(rt: HostRuntime) -> Result<(), Fail> {
    for (offset, length, answer) in PLACES {
        let presets = [preset(1, offset, length)];
        assert_eq!(rt;
            written(rt.alloc(), &presets, b"abcdefghijklmnopqrstuvwxyz", 99)?,
            answer
        );
    }
    Ok(())
}

const NAME_BYTES: [(u8, Answer); 4] = [
    (32, Ok(32)),
    (31, Err((5, Some(1)))),
    (126, Ok(32)),
    (127, Err((5, Some(1)))),
];

#[test]
fn name_bytes_are_printable(rt: HostRuntime) -> Result<(), Fail> {
    for (byte, answer) in NAME_BYTES {
        assert_eq!(rt;
            written(rt.alloc(), &[preset(1, 0, 1)], &[byte], 99)?,
            answer
        );
    }
    Ok(())
}

#[test]
fn the_buffer_is_long_enough(rt: HostRuntime) -> Result<(), Fail> {
    let heap = rt.alloc();
    assert_eq!(rt; written(heap, &[preset(1, 0, 8)], b"Standard", 39)?, Ok(39));
    assert_eq!(rt;
        written(heap, &[preset(1, 0, 8)], b"Standard", 38)?,
        Err((7, None))
    );
    assert_eq!(rt;
        written(heap, &[preset(1, 0, 9)], b"Standard", 38)?,
        Err((5, Some(1))),
        "the name before the room"
    );
    Ok(())
}
