use crate::samples::{Refused, known_by};
use preset::{Preset, Programme, Row};

// One row: top, low, fall, high5, low5, rhigh, rlow.
type Numbers = [u8; 7];

// The numbers of the row that is made, or what its refusal is known by.
fn made(numbers: Numbers) -> Result<Numbers, Refused> {
    let [top, low, fall, high5, low5, rhigh, rlow] = numbers;
    Row::new(rlow, rhigh, low5, high5, top, low, fall)
        .map(|row| row.numbers())
        .map_err(known_by)
}

// Each bound of the rule, first kept and then broken by one, with all others kept.
const BOUNDS: [[Numbers; 2]; 12] = [
    [[100, 60, 30, 50, 40, 35, 1], [100, 60, 30, 50, 40, 35, 0]],
    [[100, 60, 30, 50, 40, 35, 35], [100, 60, 30, 50, 40, 35, 36]],
    [[100, 60, 30, 50, 40, 45, 20], [100, 60, 30, 50, 40, 46, 20]],
    [[100, 60, 30, 50, 20, 35, 20], [100, 60, 30, 50, 19, 35, 20]],
    [[100, 60, 30, 50, 50, 35, 20], [100, 60, 30, 50, 51, 35, 20]],
    [
        [100, 60, 30, 100, 40, 35, 20],
        [100, 60, 30, 101, 40, 35, 20],
    ],
    [[100, 60, 30, 40, 40, 40, 20], [100, 60, 30, 40, 40, 41, 20]],
    [[100, 45, 30, 50, 40, 35, 20], [100, 44, 30, 50, 40, 35, 20]],
    [
        [100, 100, 30, 50, 40, 35, 20],
        [100, 101, 30, 50, 40, 35, 20],
    ],
    [[250, 60, 30, 50, 40, 35, 20], [251, 60, 30, 50, 40, 35, 20]],
    [[100, 60, 1, 50, 40, 35, 20], [100, 60, 0, 50, 40, 35, 20]],
    [[100, 60, 60, 50, 40, 35, 20], [100, 60, 61, 50, 40, 35, 20]],
];

#[test]
fn each_bound_of_the_row_rule(rt: HostRuntime) {
    for [kept, broken] in BOUNDS {
        assert_eq!(rt; made(kept), Ok(kept));
        assert_eq!(rt; made(broken), Err((6, Some(0))));
    }
}

#[test]
fn pzb90_rows(rt: HostRuntime) {
    let preset = Preset::pzb90();
    assert_eq!(rt; preset.number.value, 1);
    assert_eq!(rt;
        preset.row(Programme::O).numbers(),
        [165, 85, 23, 65, 45, 45, 25]
    );
    assert_eq!(rt;
        preset.row(Programme::M).numbers(),
        [125, 70, 29, 50, 35, 25, 25]
    );
    assert_eq!(rt;
        preset.row(Programme::U).numbers(),
        [105, 55, 38, 40, 25, 25, 25]
    );
}

#[test]
fn a_row_by_its_fields(rt: HostRuntime) {
    let row = Preset::pzb90().row(Programme::O).fields();
    let speeds = [row.top, row.low, row.high5, row.low5, row.rhigh, row.rlow];
    for (speed, value) in speeds.iter().zip([165, 85, 65, 45, 45, 25]) {
        assert_eq!(rt; speed.value, value);
    }
    assert_eq!(rt; row.fall.value, 23);
}
