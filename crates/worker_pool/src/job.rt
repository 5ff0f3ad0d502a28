//! Jobs, which workers run. Every kind of job implements this trait: `parallel_for`, `uses` and the
//! tests have some. A change of its contract also changes `specs/Laws` and `specs/Nodes`.
ghost use Rattle.std.specs.Prelude.{◌≡◌, ℕ, IfOk, IfErr};

use std::alloc::{AllocError, Allocator};

/// How a step of a job ended.
#[derive(Debug, Drop, PartialEq, Eq)]
pub enum Progress<J, O> {
    /// The job split: `kid` is a job of its own, and `rest` is what remains of this job.
    Fork { kid: J, rest: J },
    /// The job is done, and leaves this out.
    Done(O),
}

/// A job, which runs by taking steps until one is its last.
///
/// Each fork leaves lighter jobs, so that every run of a job ends.
pub trait Job<A: Allocator>: Sized {
    ghost use Rattle.std.specs.Prelude.{ℕ};
    ghost use Rattle.worker_pool.specs.declared.job.Progress.{Progress};
    ghost use Rattle.worker_pool.specs.Steps.{ForksLighter};

    /// The value that all jobs of a pool share.
    type Ctx;

    /// The result that a job leaves.
    type Out: Drop;

    /// The value that is left of an abandoned job.
    type Abandoned: Drop;

    ghost weight_of: { Self → ℕ };

    // The job's law: which progress a step may make.
    ghost allows: { Self.Ctx → Self → Progress Self Self.Out → Type 0 };

    // Which jobs may run out of memory in a step: any job, unless a kind of jobs says otherwise.
    ghost may_lack_memory: { Self.Ctx → Self → Type 0 } = { λ _ _. Unit {0} };

    // Which values may be left of an abandoned job.
    ghost abandons: { Self.Ctx → Self → Self.Abandoned → Type 0 };

    /// Returns the job's weight, which is lower for each part of a fork.
    fn weight(&self) -> u64
        ensures { result ≡ weight_of self.now };

    /// Takes a step. If it runs out of memory, the job has ended too.
    fn step(self, alloc: A, ctx: &Self::Ctx) -> Result<Progress<Self, Self::Out>, AllocError>
        ensures law { IfOk result (allows ctx.now self) }
        ensures lighter { IfOk result (ForksLighter weight_of (weight_of self)) }
        ensures lacks { IfErr result (λ _. may_lack_memory ctx.now self) };

    /// Ends a job, or the rest of one, without taking another step, since an allocation failed
    /// before the step. The result shows that the job has done what it owes: for example, that it
    /// has given its notices.
    fn abandon(self, ctx: &Self::Ctx) -> Self::Abandoned
        ensures { abandons ctx.now self result };
}
