// A buyer's own odometer and brake: what their impls show is all that a set will ask of them. Neither can be copied or let go.
ghost use Rattle.std.specs.Prelude.{◌+◌, ◌*◌, ◌≤◌, true, if◌then◌else◌, Ok, Err, nat_lt};
ghost use Rattle.odometer.specs.declared.fault.Fault.TheVariants.{BeyondRange, TooFar};
ghost use Rattle.std.proofs.Common.{rules};

use crate::readings::read;
use brake::{Brake, Pressure, Refusal, rehearse};
use odometer::{Fault, Odometer, Way};

// A tape that is read by the metres that came since the last good reading, and ends at ten kilometres.
struct Tape {
    metres: u64,
    ghost in_range: { metres ≤ 10000 },
}

impl Odometer for Tape {
    type Reading = u8;

    ghost meaning = { record { way = λ t. t.metres * 1000; reads = λ t r. (if nat_lt 200 r then Err TooFar else (if nat_lt 10000 (t.metres + r) then Err BeyondRange else Ok ((t.metres + r) * 1000))) } };

    ghost bounded = { Prim.search rules };

    ghost moves = { Prim.search rules };

    fn take(&mut self, reading: u8) -> Result<Way, Fault> {
        if reading > 200 {
            return Err(Fault::TooFar);
        }
        let metres = self.metres + u64::from(reading);
        if metres > 10_000 {
            return Err(Fault::BeyondRange);
        }
        self.metres = metres;
        Ok(self.way())
    }

    fn way(&self) -> Way {
        Way {
            millimetres: self.metres * 1_000,
        }
    }
}

// A brake that is settled while it is applied, and counts how often that was.
struct Counting {
    applied: bool,
    times: u32,
}

impl Brake for Counting {
    ghost meaning = { record { applied = λ b. b.applied; settled = λ b. b.applied } };

    const SETTLES_AT_ONCE: bool = true;

    ghost SETTLES_AT_ONCE = { true };

    fn apply(&mut self) {
        self.applied = true;
        self.times = self.times.saturating_add(1);
    }

    fn is_applied(&self) -> bool {
        self.applied
    }

    fn tell(&mut self, _pressure: Pressure) {}

    fn let_off(&mut self) -> Result<(), Refusal> {
        if !self.applied {
            return Err(Refusal::NotSettled);
        }
        self.applied = false;
        Ok(())
    }

    fn is_settled(&self) -> bool {
        self.applied
    }
}

#[test]
fn a_tape_answers_faults_of_its_own(rt: HostRuntime) {
    let mut tape = Tape { metres: 9_700 };
    let readings = [
        read(&mut tape, 200),
        read(&mut tape, 201),
        read(&mut tape, 101),
        read(&mut tape, 100),
    ];
    let Tape { metres } = tape;
    assert_eq!(rt;
        readings,
        [
            (None, 9_900_000),
            (Some(15), 9_900_000),
            (Some(17), 9_900_000),
            (None, 10_000_000),
        ]
    );
    assert_eq!(rt; metres, 10_000);
}

#[test]
fn a_brake_that_holds_more_than_its_facts(rt: HostRuntime) {
    let mut brake = Counting {
        applied: false,
        times: 0,
    };
    let first = rehearse(&mut brake, &[]).is_ok();
    let second = rehearse(&mut brake, &[Pressure { hundredths: 500 }]).is_ok();
    let Counting { applied, times } = brake;
    assert_eq!(rt; (first, second, applied, times), (true, true, false, 2));
}
