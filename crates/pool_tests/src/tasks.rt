//! The tasks of the tests' pools.
use std::alloc::{AllocError, Global};
use std::sync::Arc;
use std::sync::atomic::{AtomicU64, Ordering};
use worker_pool::{BoxedJob, BoxedTask, TaskOut};

/// How often a task looks whether the other task has come.
const LOOKS: u64 = 200_000_000;

/// A task whose first run answers ten times its tag. Later runs answer 0, since the first run sets
/// the tag to 0.
#[derive(Drop)]
struct Tenfold {
    tag: u64,
}

impl BoxedTask for Tenfold {
    ghost use Rattle.std.specs.Prelude.{◌≡◌, ◌*◌, ◌%◌, ◌^◌};

    ghost tag_of = { λ task. task.tag };

    ghost may_answer = { λ task answer. answer ≡ (task.tag * 10) % 2 ^ 64 };

    fn tag(&self) -> u64 {
        self.tag
    }

    fn run(&mut self) -> u64 {
        let answer = self.tag.wrapping_mul(10);
        self.tag = 0;
        answer
    }
}

/// Returns the out of a task with this tag.
pub(crate) fn out_of(tag: u64) -> TaskOut {
    let answer = tag.wrapping_mul(10);
    TaskOut { tag, answer }
}

/// Returns a job that answers ten times this tag.
fn job_of(alloc: Global, tag: u64) -> Result<BoxedJob, AllocError> {
    Ok(BoxedJob(Box::new(alloc, Tenfold { tag })?))
}

/// Returns tasks with the tags from `behind + 1` to `last`.
pub(crate) fn tenfolds(alloc: Global, behind: u64, last: u64) -> Result<Vec<BoxedJob>, AllocError> {
    let mut jobs = Vec::new(alloc);
    for before in behind..last {
        jobs.push(job_of(alloc, before.wrapping_add(1))?)?;
    }
    Ok(jobs)
}

/// A task that raises a flag. It answers ten times its tag if it sees another flag raised, and
/// otherwise 0.
#[derive(Drop)]
struct Meets {
    tag: u64,
    mine: Arc<AtomicU64>,
    other: Arc<AtomicU64>,
    looks: u64,
}

impl BoxedTask for Meets {
    ghost tag_of = { λ task. task.tag };

    ghost may_answer = { λ _ _. Unit {0} };

    fn tag(&self) -> u64 {
        self.tag
    }

    fn run(&mut self) -> u64 {
        self.mine.store(1, Ordering::SeqCst);
        for _ in 0..self.looks {
            if self.other.load(Ordering::SeqCst) == 1 {
                return self.tag.wrapping_mul(10);
            }
        }
        0
    }
}

/// Returns a task with the tag 1, which reports that it ran, and sees whether the workers were let
/// go before.
pub(crate) fn looking(
    alloc: Global,
    ran: &Arc<AtomicU64>,
    let_go: &Arc<AtomicU64>,
) -> Result<Vec<BoxedJob>, AllocError> {
    let task = Meets {
        tag: 1,
        mine: Arc::try_clone(ran)?,
        other: Arc::try_clone(let_go)?,
        looks: 1,
    };
    let mut jobs = Vec::new(alloc);
    jobs.push(BoxedJob(Box::new(alloc, task)?))?;
    Ok(jobs)
}

/// Returns two tasks with the tags 1 and 2, which look for each other's flag.
pub(crate) fn meeting(alloc: Global) -> Result<Vec<BoxedJob>, AllocError> {
    let one = Arc::new(alloc, AtomicU64::new(0))?;
    let two = Arc::new(alloc, AtomicU64::new(0))?;
    let mut jobs = Vec::new(alloc);
    for (tag, mine, other) in [(1, &one, &two), (2, &two, &one)] {
        let task = Meets {
            tag,
            mine: Arc::try_clone(mine)?,
            other: Arc::try_clone(other)?,
            looks: LOOKS,
        };
        jobs.push(BoxedJob(Box::new(alloc, task)?))?;
    }
    Ok(jobs)
}
