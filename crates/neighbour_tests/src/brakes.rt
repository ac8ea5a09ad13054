use brake::{Brake, BrakeLoop, Pressure, Refusal, Valve, rehearse};
use std::test::Fail;

// A table of steps and outcomes is plainer than a call and a comparison for each.
#[derive(Clone, Copy)]
pub(crate) enum Step {
    Apply,
    Tell(u16),
    LetOff,
}

// A step, the number of its refusal, and then whether the brake is applied and whether it is settled.
pub(crate) type Case = (Step, Option<u8>, bool, bool);

// Makes one step, and answers the number of the refusal, if there is one.
fn make<B: Brake>(brake: &mut B, step: Step) -> Option<u8> {
    match step {
        Step::Apply => brake.apply(),
        Step::Tell(hundredths) => brake.tell(Pressure { hundredths }),
        Step::LetOff => return brake.let_off().err().map(Refusal::number),
    }
    None
}

// A new brake has neither fact; then each step in turn.
pub(crate) fn check_steps<B: Brake>(brake: &mut B, cases: &[Case]) -> Result<(), Fail> {
    if (brake.is_applied(), brake.is_settled()) != (false, false) {
        return Err(Fail::new("a new brake has one of the facts"));
    }
    for (at, &(step, number, applied, settled)) in cases.iter().enumerate() {
        let refusal = make(brake, step);
        if (refusal, brake.is_applied(), brake.is_settled()) != (number, applied, settled) {
            return Err(Fail::new(at));
        }
    }
    Ok(())
}

#[test]
fn a_valve_settles_when_the_pressure_has_fallen() -> Result<(), Fail> {
    check_steps(
        &mut Valve::new(),
        &[
            (Step::LetOff, Some(24), false, false),
            (Step::Tell(0), None, false, false),
            (Step::Apply, None, true, false),
            (Step::LetOff, Some(24), true, false),
            (Step::Tell(350), None, true, false),
            (Step::Tell(500), None, true, false),
            (Step::Tell(349), None, true, true),
            (Step::Tell(500), None, true, true),
            (Step::Apply, None, true, false),
            (Step::Tell(0), None, true, true),
            (Step::LetOff, None, false, false),
            (Step::LetOff, Some(24), false, false),
            (Step::Tell(349), None, false, false),
        ],
    )
}

#[test]
fn a_loop_settles_at_once() -> Result<(), Fail> {
    check_steps(
        &mut BrakeLoop::new(),
        &[
            (Step::LetOff, Some(24), false, false),
            (Step::Tell(349), None, false, false),
            (Step::Apply, None, true, true),
            (Step::Tell(500), None, true, true),
            (Step::Tell(349), None, true, true),
            (Step::Apply, None, true, true),
            (Step::LetOff, None, false, false),
            (Step::LetOff, Some(24), false, false),
        ],
    )
}

// What the kind of a brake says, by its constant and by its method.
fn kind<B: Brake>() -> (bool, bool) {
    (B::SETTLES_AT_ONCE, B::settled_when_applied())
}

#[test]
fn the_kinds(rt: HostRuntime) {
    assert_eq!(rt; kind::<Valve>(), (false, false));
    assert_eq!(rt; kind::<BrakeLoop>(), (true, true));
}

// A kind is a constant for callers too.
const A_VALVE_SETTLES_AT_ONCE: bool = <Valve as Brake>::SETTLES_AT_ONCE;

#[test]
fn a_kind_in_a_constant_and_calls_as_values(rt: HostRuntime) {
    let make: fn() -> BrakeLoop = BrakeLoop::new;
    let apply: fn(&mut BrakeLoop) = BrakeLoop::apply;
    let mut brake = make();
    apply(&mut brake);
    let as_its_kind_says = match brake.is_settled() {
        BrakeLoop::SETTLES_AT_ONCE => true,
        _ => false,
    };
    assert!(rt; as_its_kind_says);
    assert!(rt; !A_VALVE_SETTLES_AT_ONCE);
}

// Whether a brake is let off once it was applied and told these pressures.
fn let_off<B: Brake>(brake: &mut B, told: &[Pressure]) -> bool {
    rehearse(brake, told).is_ok()
}

#[test]
fn what_a_brake_was_told_since_it_was_applied(rt: HostRuntime) {
    let edge = [Pressure { hundredths: 500 }, Pressure { hundredths: 350 }];
    let low = [Pressure { hundredths: 349 }, Pressure { hundredths: 500 }];
    assert_eq!(rt; let_off(&mut Valve::new(), &[]), false);
    assert_eq!(rt; let_off(&mut Valve::new(), &edge), false);
    assert_eq!(rt; let_off(&mut Valve::new(), &low), true);
    assert_eq!(rt; let_off(&mut BrakeLoop::new(), &[]), true);
    assert_eq!(rt; let_off(&mut BrakeLoop::new(), &edge), true);
}

#[test]
fn a_refusal_has_its_layer(rt: HostRuntime) -> Result<(), Fail> {
    let refusal = Valve::new()
        .let_off()
        .err()
        .ok_or("a new valve is let off")?;
    assert_eq!(rt; refusal.layer(), "brake");
    Ok(())
}
