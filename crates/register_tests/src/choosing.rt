use choosers::chooser::Chooser;
use choosers::script::Script;
use choosers::stride::Stride;
use std::test::Fail;
use terms::numbers::Place;

fn given<C: Chooser>(chooser: &mut C, low: u64, high: u64) -> u64 {
    chooser.choose(Place(low), Place(high)).0
}

#[test]
fn a_stride_steps_or_halves(rt: HostRuntime) -> Result<(), Fail> {
    let mut stride = Stride::new(8)?;
    assert_eq!(rt; given(&mut stride, 0, 1 << 62), 8);
    assert_eq!(rt; given(&mut stride, 0, 8), 4);
    assert_eq!(rt; given(&mut stride, 0, 9), 8);
    assert_eq!(rt; given(&mut stride, 6, 8), 7);
    assert_eq!(rt; given(&mut stride, 6, 7), 6);
    assert_eq!(rt; given(&mut stride, u64::MAX, 0), u64::MAX);
    assert_eq!(rt; given(&mut stride, u64::MAX - 2, u64::MAX), u64::MAX - 1);
    Ok(())
}

#[test]
fn a_script_gives_its_numbers_in_turn(rt: HostRuntime) {
    let numbers = [6, 3];
    let mut script = Script::new(&numbers);
    assert_eq!(rt; given(&mut script, 0, 10), 6);
    assert_eq!(rt; given(&mut script, 0, 10), 3);
    assert_eq!(rt; given(&mut script, 0, 10), 1);
}

#[test]
fn a_script_uses_up_what_does_not_fit(rt: HostRuntime) {
    let numbers = [10, 0, 3];
    let mut script = Script::new(&numbers);
    assert_eq!(rt; given(&mut script, 0, 10), 1);
    assert_eq!(rt; given(&mut script, 4, 4), 4);
    assert_eq!(rt; given(&mut script, 0, 10), 1);
    assert_eq!(rt; given(&mut script, 2, 3), 2);
    assert_eq!(rt; given(&mut script, 2, 4), 3);
}
