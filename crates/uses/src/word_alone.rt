//! A schedule of a pool's threads, written as a list of events and tried without starting a thread.
//! `event_word/CALLING.md` quotes it.
ghost use Rattle.std.specs.Prelude.{◌≡◌, ◌≤◌, ℕ, IfOk};
ghost use Rattle.event_word.specs.Limits.{most_workers};
ghost use Rattle.event_word.specs.Play.{Plays};
ghost use Rattle.event_word.specs.Waking.{StaysAwake};
ghost use Rattle.event_word.specs.World.{opening_world};

use event_word::{Event, World, plays_are_runs, runs_stay_awake};
use std::alloc::{AllocError, Global};

/// Returns the World that the events lead to. Impossible events are skipped. In no such World is a
/// row with jobs forgotten while all workers sleep.
pub fn tried(
    alloc: Global,
    workers: u16,
    notifiers: u16,
    rows: u16,
    events: &[Event],
) -> Result<World, AllocError>
    requires some { 1 ≤ workers }
    requires few { workers ≤ most_workers }
    ensures played { IfOk result (λ world. (taken : ℕ)
        × Plays (opening_world workers notifiers rows) events.now taken world) }
    ensures awake { IfOk result StaysAwake }
{
    let mut world = World::new(alloc, workers, notifiers, rows)?;
    world.play(events);
    plays_are_runs();
    runs_stay_awake();
    Ok(world)
}
