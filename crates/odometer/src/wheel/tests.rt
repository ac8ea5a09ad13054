use super::Wheel;
use crate::{Circumference, Fault, Odometer, Pulses};

// Nobody else can make a wheel that has come so far already.

// The number of the fault, if there is one, and the way afterwards.
fn read(wheel: &mut Wheel, count: u32) -> (Option<u8>, u64) {
    let fault = wheel.take(Pulses { count }).err().map(Fault::number);
    (fault, wheel.way().millimetres)
}

#[test]
fn up_to_the_longest_way_and_no_further(rt: HostRuntime) {
    // a pulse is 100 mm
    let mut wheel = Wheel {
        circumference: Circumference { millimetres: 1_600 },
        turn: Pulses { count: 16 },
        pulses: 9_999_999_999,
    };
    assert_eq!(rt; read(&mut wheel, 1), (None, 1_000_000_000_000));
    assert_eq!(rt; read(&mut wheel, 1), (Some(17), 1_000_000_000_000));
    assert_eq!(rt; read(&mut wheel, 0), (None, 1_000_000_000_000));
}

#[test]
fn one_millimetre_beyond_the_longest_way(rt: HostRuntime) {
    // the next pulse leads to 1,000,000,000,001 mm
    let mut wheel = Wheel {
        circumference: Circumference { millimetres: 2_930 },
        turn: Pulses { count: 64 },
        pulses: 21_843_003_412,
    };
    assert_eq!(rt; read(&mut wheel, 1), (Some(17), 999_999_999_955));
    assert_eq!(rt;
        read(&mut wheel, 20_000),
        (Some(15), 999_999_999_955),
        "too far comes before beyond"
    );
}
