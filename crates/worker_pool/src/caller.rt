//! The caller: what the body of a pool schedules and cancels by. `specs/Callers` says what stays
//! true of a caller; `opening/lending.rt` makes it and takes it apart.
ghost use Rattle.std.specs.Prelude.{◌≡◌, ◌≤◌, [], ◌∷◌, ◌++◌};
ghost use Rattle.worker_pool.specs.Callers.{IsCaller, StaysCaller, IsCancelled, roots_of};
ghost use Rattle.worker_pool.specs.Callers.{started_of, workers_of, stop_of};

use crate::job::Job;
use crate::lists::Lists;
use crate::opening::opener_state;
use crate::opening::opener_state::OpenerState;
use crate::queues::job_queue::JobQueue;
use crate::queues::job_queue::job_seat::JobSeat;
use crate::queues::job_queue::stop::StopWord;
use event_count::WaitPoint;
use run_queue::Rows;
use std::alloc::Allocator;
use std::sync::Wait;

/// The handle that a pool lends to its body, which schedules jobs through it.
pub struct Caller<
    'p,
    J: Job<A>,
    A: Allocator,
    W: WaitPoint<A>,
    R: Rows<J, A>,
    L: Lists<J::Out, A>,
> {
    pub(crate) queue: &'p JobQueue<W, R>,
    pub(crate) stop: &'p StopWord,
    pub(crate) alloc: &'p A,
    pub(crate) ctx: &'p J::Ctx,
    pub(crate) opener: OpenerState<J, A, JobSeat<J, A, W, R>, L>,
}

impl<'p, J, A, W, R, L> Caller<'p, J, A, W, R, L>
where
    J: Job<A>,
    A: Allocator + Clone,
    W: WaitPoint<A>,
    R: Rows<J, A>,
    L: Lists<J::Out, A>,
{
    /// Schedules a job. It goes to the back of a row that a random word picks, and one worker is
    /// woken. If the row is full, or no worker was started, the job runs at once on this thread.
    pub fn schedule<RT: Wait>(&mut self, rt: &RT, job: J)
        requires { IsCaller R.Rows W.WaitPoint J.Job L.Lists self.old }
        ensures caller { StaysCaller R.Rows W.WaitPoint J.Job L.Lists self.old self.new }
        ensures more { roots_of self.new ≡ roots_of self.old ++ job ∷ [] }
        ensures stop { stop_of self.new ≡ stop_of self.old }
    {
        let opener = &mut self.opener;
        opener_state::schedule::<_, _, _, JobQueue<W, R>, L>(
            rt, self.queue, self.alloc, self.ctx, opener, job,
        );
    }

    /// Cancels the pool: each worker ends before its next turn. Jobs can still be scheduled. The
    /// jobs that nobody has run are handed back once the pool is closed.
    pub fn cancel<RT: Wait>(&mut self, rt: &RT)
        requires { IsCaller R.Rows W.WaitPoint J.Job L.Lists self.old }
        ensures caller { StaysCaller R.Rows W.WaitPoint J.Job L.Lists self.old self.new }
        ensures same { roots_of self.new ≡ roots_of self.old }
        ensures cancelled { IsCancelled self.new }
    {
        self.opener.cancelled = true;
        let seat = &mut self.opener.seats.seat;
        seat.tell_all(rt, self.queue, self.stop, true);
    }

    /// Returns how many workers were started, which is at most the number of the setup.
    pub fn workers(&self) -> u32
        requires { IsCaller R.Rows W.WaitPoint J.Job L.Lists self.now }
        ensures started { result ≡ started_of self.now }
        ensures few { result ≤ workers_of self.now }
    {
        self.opener.seats.started
    }
}
