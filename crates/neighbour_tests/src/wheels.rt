use crate::readings::read;
use odometer::{Circumference, Odometer, Pulses, Refusal, Wheel};
use std::test::Fail;

fn wheel(millimetres: u32, turn: u32) -> Result<Wheel, Refusal> {
    Wheel::new(Circumference { millimetres }, Pulses { count: turn })
}

// Reads so many pulses.
fn roll(wheel: &mut Wheel, count: u32) -> (Option<u8>, u64) {
    read(wheel, Pulses { count })
}

// Circumference, pulses a turn, and the number of the refusal, if there is one.
const LIMITS: [(u32, u32, Option<u8>); 12] = [
    (1_500, 16, None),
    (4_500, 256, None),
    (1_499, 64, Some(25)),
    (1_500, 64, None),
    (4_500, 64, None),
    (4_501, 64, Some(25)),
    (2_890, 15, Some(25)),
    (2_890, 16, None),
    (2_890, 256, None),
    (2_890, 257, Some(25)),
    (0, 0, Some(25)),
    (u32::MAX, u32::MAX, Some(25)),
];

#[test]
fn limits_of_a_wheel(rt: HostRuntime) {
    for (circumference, turn, number) in LIMITS {
        match wheel(circumference, turn) {
            Ok(new) => {
                assert_eq!(rt; number, None);
                assert_eq!(rt; new.way().millimetres, 0);
            }
            Err(refusal) => {
                assert_eq!(rt; Some(refusal.number()), number);
                assert_eq!(rt; refusal.layer(), "odometer");
            }
        }
    }
}

#[test]
fn three_pulses_and_a_turn(rt: HostRuntime) -> Result<(), Fail> {
    let mut a = wheel(2_890, 64)?;
    assert_eq!(rt; roll(&mut a, 3), (None, 135));
    assert_eq!(rt; roll(&mut a, 61), (None, 2_890));
    let mut b = wheel(2_890, 64)?;
    assert_eq!(rt; roll(&mut b, 64), (None, 2_890));
    Ok(())
}

#[test]
fn the_way_is_rounded_once(rt: HostRuntime) -> Result<(), Fail> {
    let mut a = wheel(2_890, 64)?;
    assert_eq!(rt; roll(&mut a, 1), (None, 45));
    assert_eq!(rt; roll(&mut a, 2), (None, 135));
    // 61 readings more of 45.16 mm each
    for _ in 0..61 {
        assert_eq!(rt; roll(&mut a, 1).0, None);
    }
    assert_eq!(rt; a.way().millimetres, 2_890);
    Ok(())
}

#[test]
fn the_longest_move(rt: HostRuntime) -> Result<(), Fail> {
    // a pulse is 100 mm
    let mut a = wheel(1_600, 16)?;
    assert_eq!(rt; roll(&mut a, 2_000), (None, 200_000));
    assert_eq!(rt; roll(&mut a, 2_001), (Some(15), 200_000));
    assert_eq!(rt;
        roll(&mut a, 2_000),
        (None, 400_000),
        "the fault is not remembered"
    );
    // 981 pulses are 200,001 mm, and 980 are 199,797
    let mut b = wheel(3_262, 16)?;
    assert_eq!(rt; roll(&mut b, 981), (Some(15), 0));
    assert_eq!(rt; roll(&mut b, 980), (None, 199_797));
    Ok(())
}

#[test]
fn the_finest_wheel_moves_too_far_long_before_its_longest_reading(
    rt: HostRuntime,
) -> Result<(), Fail> {
    let mut a = wheel(1_500, 256)?;
    for pulses in [34_134, 65_535, 65_536, u32::MAX] {
        assert_eq!(rt; roll(&mut a, pulses), (Some(15), 0));
    }
    assert_eq!(rt; roll(&mut a, 34_133), (None, 199_998));
    assert_eq!(rt; roll(&mut a, 0), (None, 199_998));
    Ok(())
}
