use crate::samples::{PAIR, STANDARD};
use listing::report;
use std::test::Fail;

#[test]
fn a_file_is_listed_and_written_back(rt: HostRuntime) -> Result<(), Fail> {
    let text =
        "read 39 bytes\npreset 1 Standard\nO 165 85 23 65 45 45 25\nM 125 70 29 50 35 25 25\nU 105 55 38 40 25 25 25\nwrote 39 bytes, same\n";
    assert!(rt; report(rt.alloc(), &STANDARD)?.as_slice() == text.as_bytes());
    Ok(())
}

#[test]
fn presets_come_in_order(rt: HostRuntime) -> Result<(), Fail> {
    let text =
        "read 59 bytes\npreset 3 A\nO 100 70 26 50 35 35 25\nM 90 65 30 45 30 25 25\nU 80 50 38 40 25 25 25\npreset 200 BC\nO 250 250 60 250 250 45 45\nM 250 45 1 45 45 45 1\nU 45 45 1 45 1 1 1\nwrote 59 bytes, same\n";
    assert!(rt; report(rt.alloc(), &PAIR)?.as_slice() == text.as_bytes());
    Ok(())
}

#[test]
fn a_refused_file_gives_two_lines(rt: HostRuntime) -> Result<(), Fail> {
    let heap = rt.alloc();
    assert!(rt; report(heap, b"")?.as_slice() == b"read 0 bytes\nno 1 file\n".as_slice());
    assert!(rt;
        report(heap, &[2, 1, 0, 6, 0, 6])?.as_slice() == b"read 6 bytes\nno 2 file\n".as_slice()
    );
    assert!(rt;
        report(heap, &[1, 1, 0, 6, 0, 6])?.as_slice() == b"read 6 bytes\nno 3 file\n".as_slice()
    );
    let mut doubled = PAIR;
    doubled[31] = 3;
    assert!(rt; report(heap, &doubled)?.as_slice() == b"read 59 bytes\nno 4 file 2\n".as_slice());
    let mut nameless = STANDARD;
    nameless[9] = 0;
    assert!(rt; report(heap, &nameless)?.as_slice() == b"read 39 bytes\nno 5 file 1\n".as_slice());
    let mut steep = STANDARD;
    steep[12] = 61;
    assert!(rt; report(heap, &steep)?.as_slice() == b"read 39 bytes\nno 6 file 1\n".as_slice());
    Ok(())
}

#[test]
fn a_long_input_is_measured(rt: HostRuntime) -> Result<(), Fail> {
    let heap = rt.alloc();
    let longest = vec![in heap; 255u8; 65535]?;
    assert!(rt;
        report(heap, longest.as_slice())?.as_slice() == b"read 65535 bytes\nno 2 file\n".as_slice(),
        "the length that it says"
    );
    let longer = vec![in heap; 255u8; 65536]?;
    assert!(rt;
        report(heap, longer.as_slice())?.as_slice() == b"read 65536 bytes\nno 1 file\n".as_slice()
    );
    let turned = vec![in heap; 1u8; 65793]?;
    assert!(rt;
        report(heap, turned.as_slice())?.as_slice() == b"read 65793 bytes\nno 1 file\n".as_slice(),
        "65,536 more than it says"
    );
    Ok(())
}
