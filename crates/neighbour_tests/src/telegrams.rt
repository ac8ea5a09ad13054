use crate::readings::read;
use odometer::{Odometer, Place, Telegram};
use std::test::Fail;

// A place in decimetres, the number of its fault, if it has one, and the way in millimetres afterwards.
type Reading = (u32, Option<u8>, u64);

// Reads each place in turn.
fn check_places(readings: &[Reading]) -> Result<(), Fail> {
    let mut telegram = Telegram::new();
    if telegram.way().millimetres != 0 {
        return Err(Fail::new("a new telegram odometer has a way"));
    }
    for (decimetres, fault, way) in readings.iter().copied() {
        if read(&mut telegram, Place { decimetres }) != (fault, way) {
            return Err(Fail::new(decimetres));
        }
    }
    Ok(())
}

#[test]
fn counts_from_the_first_place() -> Result<(), Fail> {
    check_places(&[
        (7_000, None, 0),
        (7_000, None, 0),
        (7_001, None, 100),
        (7_021, None, 2_100),
    ])?;
    check_places(&[(0, None, 0), (5, None, 500)])
}

#[test]
fn a_place_below_the_last() -> Result<(), Fail> {
    check_places(&[
        (7_000, None, 0),
        (7_010, None, 1_000),
        (7_009, Some(16), 1_000),
        (0, Some(16), 1_000),
        (7_010, None, 1_000),
    ])
}

#[test]
fn the_longest_move() -> Result<(), Fail> {
    check_places(&[
        (7_000, None, 0),
        (9_001, Some(15), 0),
        (9_000, None, 200_000),
        (u32::MAX, Some(15), 200_000),
        (11_000, None, 400_000),
    ])
}

#[test]
fn the_last_place_that_can_be_read() -> Result<(), Fail> {
    check_places(&[
        (u32::MAX, None, 0),
        (u32::MAX, None, 0),
        (4_294_967_294, Some(16), 0),
    ])?;
    check_places(&[(4_294_965_295, None, 0), (u32::MAX, None, 200_000)])
}
