use preset::{Refusal, read};
use std::alloc::{AllocError, Global};
use std::test::Fail;

// The file of the PZB 90 preset, number 1, `Standard`: its header, its entry up to the rows O, M and U, and the name.
pub(crate) const STANDARD: [u8; 39] = *b"\
    \x01\x01\x00\x06\x00\x27\
    \x01\x00\x1f\x08\
    \xa5\x55\x17\x41\x2d\x2d\x19\
    \x7d\x46\x1d\x32\x23\x19\x19\
    \x69\x37\x26\x28\x19\x19\x19\
    Standard";

// Two presets, 3 `A` and 200 `BC`.
pub(crate) const PAIR: [u8; 59] = *b"\
    \x01\x02\x00\x06\x00\x3b\
    \x03\x00\x38\x01\
    \x64\x46\x1a\x32\x23\x23\x19\
    \x5a\x41\x1e\x2d\x1e\x19\x19\
    \x50\x32\x26\x28\x19\x19\x19\
    \xc8\x00\x39\x02\
    \xfa\xfa\x3c\xfa\xfa\x2d\x2d\
    \xfa\x2d\x01\x2d\x2d\x2d\x01\
    \x2d\x2d\x01\x2d\x01\x01\x01\
    ABC";

// What a refusal is known by: its number, and the entry that it names.
pub(crate) type Refused = (u8, Option<u8>);

pub(crate) fn known_by(refusal: Refusal) -> Refused {
    (refusal.number(), refusal.entry())
}

// What comes of reading bytes.
pub(crate) type Outcome = Result<(), Refused>;

// Changes of some bytes, each a place and a value; what comes of reading them; and what they are.
pub(crate) type Case = (&'static [(usize, u8)], Outcome, &'static str);

pub(crate) fn outcome(bytes: &[u8]) -> Outcome {
    read(bytes).map(|_| ()).map_err(known_by)
}

// Changes the bytes by each case in turn, and compares.
pub(crate) fn check_cases(heap: Global, bytes: &[u8], cases: &[Case]) -> Result<(), Fail> {
    for (edits, expected, what) in cases {
        let mut copy = bytes.to_vec(heap)?;
        for (at, value) in *edits {
            let Some(b) = copy.get_mut(*at) else {
                return Err(Fail::new("an edit outside the file"));
            };
            *b = *value;
        }
        if outcome(copy.as_slice()) != *expected {
            return Err(Fail::new(*what));
        }
    }
    Ok(())
}

// The file of one preset with the PZB 90 rows and a name of so many bytes, put together byte by byte.
pub(crate) fn named(heap: Global, length: u8) -> Result<Vec<u8>, AllocError> {
    let mut file = Vec::new(heap);
    file.extend_from_slice(&[1, 1, 0, 6, 0, length.saturating_add(31), 1, 0, 31, length])?;
    file.extend_from_slice(&STANDARD[10..31])?;
    file.resize(file.len().saturating_add(usize::from(length)), 65)?;
    Ok(file)
}

// The file of the presets 1 to `count`, each with the PZB 90 rows and the name `A`, put together byte by byte.
pub(crate) fn built(heap: Global, count: u8) -> Result<Vec<u8>, AllocError> {
    let names = 25u16.wrapping_mul(u16::from(count)).wrapping_add(6);
    let [high, low] = names.wrapping_add(u16::from(count)).to_be_bytes();
    let mut file = Vec::new(heap);
    file.extend_from_slice(&[1, count, 0, 6, high, low])?;
    for (number, name_at) in (1..=count).zip(names..) {
        let [high, low] = name_at.to_be_bytes();
        file.extend_from_slice(&[number, high, low, 1])?;
        file.extend_from_slice(&STANDARD[10..31])?;
    }
    file.resize(file.len().saturating_add(usize::from(count)), 65)?;
    Ok(file)
}
