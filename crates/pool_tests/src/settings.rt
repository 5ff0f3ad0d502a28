//! Tests of pools in which each task is run once, by tables of runs and settings.
use crate::runs::{Kind, RUN, Run, Tasks, expect_run};
use crate::watch::Way;
use std::test::Fail;

/// Two tasks, between which the pool is cancelled.
const BETWEEN: Run = Run {
    name: "a cancel between two",
    first: 1,
    tasks: 2,
    times: 1000,
    ..RUN
};

/// One task more than a row has places, scheduled while the worker is held.
const FULL: Run = Run {
    name: "a full row",
    way: Way::Held,
    first: 1025,
    tasks: 1025,
    ..RUN
};

/// Two tasks that two workers run at the same time.
const MEETING: Run = Run {
    name: "two tasks meet",
    workers: 2,
    scheduled: Tasks::Meeting,
    first: 2,
    tasks: 2,
    ..RUN
};

const RUNS: &[Run] = &[
    MEETING,
    Run {
        name: "two tasks meet over slots",
        kind: Kind::OverSlots,
        ..MEETING
    },
    BETWEEN,
    Run {
        name: "a cancel between two on two workers",
        workers: 2,
        ..BETWEEN
    },
    Run {
        name: "a cancel between two on 64 workers",
        workers: 64,
        ..BETWEEN
    },
    // The caller runs the last task.
    Run {
        by_workers: Some(1024),
        ..FULL
    },
    Run {
        name: "a full row over slots",
        kind: Kind::OverSlots,
        ..FULL
    },
    // The workers are let go once the task could have run. One of them runs it, after the gate has
    // let through its turn 0.
    Run {
        name: "a task while all workers are held",
        workers: 2,
        way: Way::HeldLonger,
        scheduled: Tasks::Looking,
        first: 1,
        tasks: 1,
        by_workers: Some(1),
        ..RUN
    },
    // This run finds a pool that keeps its jobs elsewhere than in its rows.
    Run {
        name: "rows that take no task",
        kind: Kind::OwnRows,
        by_workers: Some(0),
        ..RUN
    },
    // The worker sleeps at most once. After that it keeps taking turns, and runs what comes.
    Run {
        name: "a worker that can not sleep",
        kind: Kind::Worn,
        way: Way::Apart,
        first: 16,
        tasks: 16,
        ..RUN
    },
];

#[test]
fn each_task_is_run_once(rt: HostRuntime) -> Result<(), Fail> {
    for &run in RUNS {
        expect_run(&rt, rt.alloc(), run)?;
    }
    Ok(())
}

/// Pools in which three tasks are scheduled: their workers, the rows of their partitions, how many
/// workers are started if not all are, and how many tasks the workers run if this is known.
const SETTINGS: &[(&str, u32, &[(u32, u32)], Option<u32>, Option<u64>)] = &[
    ("one worker", 1, &[], None, None),
    ("two workers", 2, &[], None, None),
    ("64 workers", 64, &[], None, None),
    ("a partition for each", 2, &[(0, 1), (1, 2)], None, None),
    ("none of two started", 2, &[], Some(0), Some(0)),
    ("one of two started", 2, &[], Some(1), None),
    ("two of two started", 2, &[], Some(2), None),
    ("three of two started", 2, &[], Some(3), None),
    ("all of two started", 2, &[], Some(u32::MAX), None),
];

/// The kind of rows and wait point, and how many tasks are scheduled before the pool is cancelled.
const MOMENTS: &[(Kind, u64)] = &[
    (Kind::UnderLocks, 3),
    (Kind::UnderLocks, 0),
    (Kind::OverSlots, 3),
    (Kind::OverSlots, 0),
];

/// In an open pool each task is run once. A task that is scheduled after a cancel may be left.
#[test]
fn three_tasks_in_each_setting(rt: HostRuntime) -> Result<(), Fail> {
    for &(name, workers, ranges, starts, by_workers) in SETTINGS {
        for &(kind, first) in MOMENTS {
            let run = Run {
                name,
                kind,
                workers,
                ranges,
                starts,
                first,
                by_workers,
                ..RUN
            };
            expect_run(&rt, rt.alloc(), run)?;
        }
    }
    Ok(())
}
