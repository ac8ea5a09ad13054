// Plain brakes whose kind is left open.
ghost use Rattle.brake.specs.PlainBrake.{plain_facts};

use crate::brakes::{Step, check_steps};
use brake::{Brake, BrakeLoop, PlainBrake, Pressure, Refusal, Valve, rehearse};
use std::test::Fail;

// A buyer's own brake around a plain one of either kind: the calls over the kind promise all that `Brake` asks of it.
#[derive(Drop)]
struct Around<const AT_ONCE: bool> {
    brake: PlainBrake<AT_ONCE>,
}

impl<const AT_ONCE: bool> Around<AT_ONCE> {
    fn new() -> Self {
        Around {
            brake: PlainBrake::off(),
        }
    }
}

impl<const AT_ONCE: bool> Brake for Around<AT_ONCE> {
    ghost meaning = { record { applied = λ b. plain_facts.applied b.brake; settled = λ b. plain_facts.settled b.brake } };

    const SETTLES_AT_ONCE: bool = AT_ONCE;

    ghost SETTLES_AT_ONCE = { AT_ONCE };

    fn apply(&mut self) {
        self.brake.put_on();
    }

    fn is_applied(&self) -> bool {
        self.brake.is_on()
    }

    fn tell(&mut self, pressure: Pressure) {
        self.brake.hear(pressure);
    }

    fn let_off(&mut self) -> Result<(), Refusal> {
        self.brake.take_off()
    }

    fn is_settled(&self) -> bool {
        self.brake.has_settled()
    }
}

#[test]
fn the_calls_over_either_kind() -> Result<(), Fail> {
    check_steps(
        &mut Around::<false>::new(),
        &[
            (Step::Tell(349), None, false, false),
            (Step::Apply, None, true, false),
            (Step::Tell(350), None, true, false),
            (Step::LetOff, Some(24), true, false),
            (Step::Tell(349), None, true, true),
            (Step::Apply, None, true, false),
            (Step::Tell(0), None, true, true),
            (Step::LetOff, None, false, false),
        ],
    )?;
    check_steps(
        &mut Around::<true>::new(),
        &[
            (Step::LetOff, Some(24), false, false),
            (Step::Apply, None, true, true),
            (Step::Tell(350), None, true, true),
            (Step::LetOff, None, false, false),
            (Step::Tell(349), None, false, false),
        ],
    )
}

// Whether a new brake of this kind is let off once it was applied, by the interface.
fn made_and_let_off<const AT_ONCE: bool>() -> bool
where
    PlainBrake<AT_ONCE>: Brake,
{
    rehearse(&mut PlainBrake::<AT_ONCE>::off(), &[]).is_ok()
}

#[test]
fn the_interface_over_either_kind(rt: HostRuntime) {
    assert_eq!(rt; made_and_let_off::<false>(), false);
    assert_eq!(rt; made_and_let_off::<true>(), true);
}

#[test]
fn a_kind_found_by_the_type(rt: HostRuntime) {
    let valve: Valve = PlainBrake::off();
    let brake_loop: BrakeLoop = PlainBrake::off();
    assert_eq!(rt; (valve.is_on(), valve.has_settled()), (false, false));
    assert_eq!(rt;
        (brake_loop.is_applied(), brake_loop.is_settled()),
        (false, false)
    );
}
