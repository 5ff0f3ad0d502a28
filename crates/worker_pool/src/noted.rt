//! The jobs that were scheduled, as contracts see them. `caller.rt`, `opening/` and `standing/`
//! note each job by it; no value here has a byte.
ghost use Rattle.std.specs.Prelude.{◌≡◌, [], ◌∷◌, ◌++◌};
ghost use Rattle.worker_pool.specs.Noted.{jobs_in};

use std::mem;
use std::snapshot::Snapshot;

/// Jobs, the last first.
#[derive(Drop)]
enum History<J> {
    /// No job.
    Nothing,
    /// A job after others.
    After {
        /// The other jobs.
        earlier: Snapshot<History<J>>,
        /// The last job.
        job: Snapshot<J>,
    },
}

/// The jobs that were scheduled, in order. It takes no memory: contracts alone see it.
#[derive(Drop)]
pub struct Noted<J> {
    jobs: Snapshot<History<J>>,
}

impl<J> Noted<J> {
    /// Returns no job.
    pub(crate) fn nothing() -> Self
        ensures { jobs_in result ≡ [] }
    {
        Noted {
            jobs: Snapshot::of(&History::Nothing),
        }
    }

    /// Adds a job that is scheduled.
    pub(crate) fn add(&mut self, job: &J)
        ensures { jobs_in self.new ≡ jobs_in self.old ++ job.now ∷ [] }
    {
        let earlier = mem::replace(&mut self.jobs, Snapshot::of(&History::Nothing));
        let jobs = History::After {
            earlier,
            job: Snapshot::of(job),
        };
        self.jobs = Snapshot::of(&jobs);
    }
}
