//! Worked examples of runs of a World.

use event_word::{Event, Phase, World};
use std::test::Fail;

#[test]
fn consumes_a_signal(rt: HostRuntime) -> Result<(), Fail> {
    let mut world = World::new(rt.alloc(), 1, 1, 0)?;
    let events = [
        Event::Prewait { seat: 0 },
        Event::PassFlag { seat: 0 },
        Event::Notify { actor: 1 },
        Event::Commit { seat: 0 },
    ];
    assert_eq!(rt; world.play(&events), 4);
    assert_eq!(rt; (world.phase(0), world.signals()), (Phase::Running, 0));
    assert_eq!(rt; world.play(&[Event::Commit { seat: 0 }]), 0);
    Ok(())
}

#[test]
fn a_row_is_passed_and_filled(rt: HostRuntime) -> Result<(), Fail> {
    let mut world = World::new(rt.alloc(), 1, 1, 1)?;
    let events = [
        Event::Prewait { seat: 0 },
        Event::PassFlag { seat: 0 },
        Event::Pass { seat: 0, row: 0 },
        Event::Publish { actor: 1, row: 0 },
        Event::Notify { actor: 1 },
        Event::Commit { seat: 0 },
        Event::Take { actor: 0, row: 0 },
    ];
    assert_eq!(rt; world.play(&events), 7);
    let found = (world.phase(0), world.signals(), world.length(0));
    assert_eq!(rt; found, (Phase::Running, 0, 0));
    Ok(())
}
