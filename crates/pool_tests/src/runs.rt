//! Pools that run tasks, and checks of what they leave. `settings.rt` has the tables of runs.
use crate::bodies::run_all;
use crate::own_rows::OwnRows;
use crate::setups::setup_of;
use crate::tasks::{looking, meeting, out_of, tenfolds};
use crate::watch::{Seen, Watch, Way};
use crate::worn::Worn;
use event_count::{EventCount, LockedCount};
use run_queue::{LockedRows, SlotRows};
use std::alloc::{AllocError, Global};
use std::process::Abort;
use std::sync::Wait;
use std::test::Fail;
use std::thread::Threads;
use worker_pool::{BoxedJob, Closed, PoolFault, Setup, TaskOut, VecLists};

/// The wait point and the rows of a pool that runs tasks.
#[derive(Clone, Copy, Debug)]
pub(crate) enum Kind {
    UnderLocks,
    OverSlots,
    /// Rows of slots, and a wait point at which each worker can sleep at most once.
    Worn,
    /// Rows that take no task, and a wait point with a lock.
    OwnRows,
}

/// Runs a pool on the first tasks and on tasks that are scheduled once it is cancelled, and returns
/// what it leaves.
pub(crate) fn run_tasks<RT: Threads + Wait + Sync>(
    rt: &RT,
    alloc: Global,
    kind: Kind,
    setup: &Setup,
    watch: &Watch,
    first: Vec<BoxedJob>,
    cancelled: Vec<BoxedJob>,
) -> Result<Closed<BoxedJob>, PoolFault> {
    match kind {
        Kind::UnderLocks => run_all::<LockedCount, LockedRows<BoxedJob>, VecLists, RT, BoxedJob>(
            rt,
            alloc,
            setup,
            &(),
            watch,
            first,
            cancelled,
        ),
        Kind::OverSlots => run_all::<EventCount, SlotRows<BoxedJob>, VecLists, RT, BoxedJob>(
            rt,
            alloc,
            setup,
            &(),
            watch,
            first,
            cancelled,
        ),
        Kind::Worn => run_all::<Worn, SlotRows<BoxedJob>, VecLists, RT, BoxedJob>(
            rt,
            alloc,
            setup,
            &(),
            watch,
            first,
            cancelled,
        ),
        Kind::OwnRows => {
            run_all::<LockedCount, OwnRows<LockedRows<BoxedJob>>, VecLists, RT, BoxedJob>(
                rt,
                alloc,
                setup,
                &(),
                watch,
                first,
                cancelled,
            )
        }
    }
}

/// Which tasks are scheduled.
#[derive(Clone, Copy)]
pub(crate) enum Tasks {
    Tenfolds,
    /// Two tasks that look for each other's flag.
    Meeting,
    /// A task that looks whether the workers were let go.
    Looking,
}

/// A pool, and the tasks with tags 1, 2, 3 and so on that are scheduled in it.
#[derive(Clone, Copy)]
pub(crate) struct Run {
    pub(crate) name: &'static str,
    pub(crate) kind: Kind,
    pub(crate) workers: u32,
    /// The start and the limit of each worker's partition.
    pub(crate) ranges: &'static [(u32, u32)],
    /// The number below which workers are started, if not all are.
    pub(crate) starts: Option<u32>,
    pub(crate) way: Way,
    pub(crate) scheduled: Tasks,
    /// How many tasks are scheduled before the pool is cancelled. It is cancelled only if there are
    /// more tasks.
    pub(crate) first: u64,
    pub(crate) tasks: u64,
    /// How many tasks the workers run, if it is known that the caller runs all others.
    pub(crate) by_workers: Option<u64>,
    /// How often the run is repeated.
    pub(crate) times: u32,
}

/// What a pool left of its tasks, and what the watch saw.
#[derive(Debug, Drop, PartialEq)]
struct Left {
    lists: u64,
    /// The number of outs and, if the pool was cancelled, of tasks that nobody ran.
    tasks: u64,
    /// The first of these outs, by tags, that is not the next task's.
    wrong: Option<TaskOut>,
    /// How many workers ran tasks though they were not started.
    by_others: u64,
    /// How many tasks the caller ran, and its first out that was not the next task's, if this is
    /// known.
    by_caller: Option<(u64, Option<TaskOut>)>,
    /// How many tasks nobody ran, if the pool was not cancelled.
    left: usize,
    refused: u64,
    seen: Seen,
}

/// Returns the first out that is not the next task's, in outs that must begin after the tag
/// `behind`.
fn first_wrong(behind: u64, outs: &[TaskOut]) -> Option<TaskOut> {
    let mut tag = behind;
    for out in outs {
        tag = tag.wrapping_add(1);
        if *out != out_of(tag) {
            return Some(*out);
        }
    }
    None
}

/// Collects what a pool left of the tasks of a run.
fn left_of(
    alloc: Global,
    run: Run,
    closed: &Closed<BoxedJob>,
    seen: Seen,
) -> Result<Left, AllocError> {
    let mut outs = Vec::new(alloc);
    let (mut lists, mut by_others) = (0u32, 0u64);
    for list in &closed.outs {
        let is_others = lists >= run.starts.unwrap_or(u32::MAX) && lists < run.workers;
        if is_others && !list.is_empty() {
            by_others = by_others.wrapping_add(1);
        }
        lists = lists.wrapping_add(1);
        outs.extend_from_slice(list)?;
    }
    let by_caller = match (run.by_workers, closed.outs.last()) {
        (Some(behind), Some(list)) => Some((list.len() as u64, first_wrong(behind, list))),
        _ => None,
    };
    let mut left = closed.left.len();
    if run.tasks > run.first {
        left = 0;
        for job in &closed.left {
            outs.push(out_of(job.0.tag()))?;
        }
    }
    outs.sort_by_key(|out: &TaskOut| out.tag)?;
    Ok(Left {
        lists: u64::from(lists),
        tasks: outs.len() as u64,
        wrong: first_wrong(0, &outs),
        by_others,
        by_caller,
        left,
        refused: closed.refused,
        seen,
    })
}

/// Checks that each task was run once, or is left if the pool was cancelled, and that the right
/// threads ran them.
fn expect_each_once<R: Abort>(
    rt: &R,
    alloc: Global,
    run: Run,
    closed: &Closed<BoxedJob>,
    seen: Seen,
) -> Result<(), Fail> {
    let by_caller = match run.by_workers {
        Some(by_workers) => Some((run.tasks.wrapping_sub(by_workers), None)),
        None => None,
    };
    let told = match run.starts {
        Some(starts) => Some(starts.min(run.workers)),
        None => None,
    };
    let wanted = Left {
        lists: u64::from(run.workers) + 1,
        tasks: run.tasks,
        wrong: None,
        by_others: 0,
        by_caller,
        left: 0,
        refused: 0,
        seen: Seen {
            told,
            others: 0,
            misnumbered: 0,
            awake: matches!(run.way, Way::Apart),
        },
    };
    let left = left_of(alloc, run, closed, seen)?;
    assert_eq!(rt;
        left,
        wanted,
        "{}, {:?}, {} of {} tasks",
        run.name, run.kind, run.first, run.tasks
    );
    Ok(())
}

/// Runs the pool of a run as often as it says, and checks that each task is run once.
pub(crate) fn expect_run<RT>(rt: &RT, alloc: Global, run: Run) -> Result<(), Fail>
where
    RT: Threads + Wait + Abort + Sync,
{
    let setup = setup_of(alloc, run.workers, run.ranges)?;
    for _ in 0..run.times {
        let watch = Watch::new(alloc, run.way, run.starts)?;
        let first = match run.scheduled {
            Tasks::Tenfolds => tenfolds(alloc, 0, run.first)?,
            Tasks::Meeting => meeting(alloc)?,
            Tasks::Looking => looking(alloc, &watch.ran, &watch.let_go)?,
        };
        let cancelled = tenfolds(alloc, run.first, run.tasks)?;
        let closed = run_tasks(rt, alloc, run.kind, &setup, &watch, first, cancelled)?;
        expect_each_once(rt, alloc, run, &closed, watch.seen())?;
    }
    Ok(())
}

/// Three tasks in a pool with locks, run once. Other runs change some of its fields.
pub(crate) const RUN: Run = Run {
    name: "one worker",
    kind: Kind::UnderLocks,
    workers: 1,
    ranges: &[],
    starts: None,
    way: Way::AtOnce,
    scheduled: Tasks::Tenfolds,
    first: 3,
    tasks: 3,
    by_workers: None,
    times: 1,
};
