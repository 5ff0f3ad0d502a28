//! Tasks of any kind, as jobs of one step. Nothing else in the crate depends on this file;
//! `pool_tests` runs such tasks.
ghost use Rattle.std.specs.Prelude.{◌≡◌, ℕ, IsOk, IfOk, IfErr};
ghost use Rattle.worker_pool.specs.Steps.{ForksLighter};

use crate::job::{Job, Progress};
use std::alloc::{AllocError, Allocator};

/// A task of any kind. A pool runs it at most once.
pub trait BoxedTask: Drop {
    ghost use Rattle.std.specs.Prelude.{ℕ};

    ghost tag_of: { Self → ℕ };

    // Which answers one run of the task may give.
    ghost may_answer: { Self → ℕ → Type 0 };

    /// Returns the task's tag. It distinguishes tasks if their owner gave each a number of its own.
    fn tag(&self) -> u64
        ensures { result ≡ tag_of self.now };

    /// Runs the task, and returns its answer.
    fn run(&mut self) -> u64
        ensures { may_answer self.old result };
}

/// The out of a task that was run.
#[derive(Clone, Copy, Debug, PartialEq, Eq)]
pub struct TaskOut {
    /// The task's tag, read before the task ran.
    pub tag: u64,
    /// The answer that the task's run returned.
    pub answer: u64,
}

/// A task as a job, in the box that its owner made.
#[derive(Drop)]
pub struct BoxedJob(pub Box<dyn BoxedTask + Send>);

// The one step of the job is its last: the task is run once, as it was handed in.
impl<A: Allocator> Job<A> for BoxedJob {
    ghost use Rattle.worker_pool.specs.Tasks.{IsAnswered};

    type Ctx = ();

    type Out = TaskOut;

    /// The job itself, with its task as it was handed in.
    type Abandoned = BoxedJob;

    ghost weight_of = { λ _. 0 };

    ghost allows = { λ _ job progress. let task = BoxedTask-box job.0 in
        IsAnswered (task.tag_of job.0.value) (task.may_answer job.0.value) progress };

    // No job may run out of memory, since its step allocates nothing.
    ghost may_lack_memory = { λ _ _. ⊥ };

    ghost abandons = { λ _ job left. left ≡ job };

    fn weight(&self) -> u64 {
        0
    }

    /// Runs the task. It allocates nothing, so it always returns `Ok`.
    fn step(self, _alloc: A, _ctx: &()) -> Result<Progress<BoxedJob, TaskOut>, AllocError>
        ensures law { let task = BoxedTask-box self.0 in IfOk result
            (IsAnswered (task.tag_of self.0.value) (task.may_answer self.0.value)) }
        ensures lighter { IfOk result (ForksLighter (λ _. 0) 0) }
        ensures lacks { IfErr result (λ _. ⊥) }
        ensures ok { IsOk result }
    {
        let BoxedJob(mut task) = self;
        let tag = task.tag();
        let answer = task.run();
        Ok(Progress::Done(TaskOut { tag, answer }))
    }

    /// Returns the job without running its task.
    fn abandon(self, _ctx: &()) -> BoxedJob {
        self
    }
}
