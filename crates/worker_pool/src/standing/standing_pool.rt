//! A pool that stays open, and the calls of its owner. `specs/Standing` says what is known of it
//! while it is open. A new call has to keep this (`IsStanding`).

use crate::closed::Closed;
use crate::closing::close::close;
use crate::closing::gathered::{Gathered, room};
use crate::job::Job;
use crate::lists::Lists;
use crate::opening::open::{Opened, open};
use crate::opening::opener_state::{OpenerState, end, schedule};
use crate::opening::start::Home;
use crate::queues::queue::Queue;
use crate::setup::{PoolFault, Setup};
use crate::standing::owned_pool::OwnedPool;
use crate::standing::threads::{SharedWorkplace, WorkerThread, join_all, start_each, take_back};
use crate::working::worker::WorkerState;
use std::alloc::{AllocError, Allocator};
use std::sync::{Arc, Wait};
use std::thread::Threads;

/// A pool that is open until its owner calls `close`.
///
/// The jobs, their context and their outs own what they need, because the threads of the pool may
/// outlive the call that opened it. Call `close` on every way out: the threads of a pool that is
/// dropped are never joined, and sleep until the process ends. Close the pool before about
/// 4,000,000 jobs were put into its rows, kids included, and open another: a worker that has slept
/// 4,194,304 times never sleeps again, and keeps a processor busy.
#[derive(Drop)]
pub struct StandingPool<J, A, Q, L>
where
    J: Job<A>,
    J::Ctx: Drop,
    A: Allocator + Clone,
    Q: Queue<J, A>,
    L: Lists<J::Out, A>,
{
    shared: Arc<SharedWorkplace<OwnedPool<J, A, Q>>, A>,
    opener: OpenerState<J, A, Q::Seat, L>,
    threads: Vec<WorkerThread<OwnedPool<J, A, Q>, WorkerState<J, A, Q>>, A>,
    /// The states of the workers whose threads could not be started, with room for all workers.
    ended: Vec<Home<WorkerState<J, A, Q>>, A>,
    gathered: Gathered<J, A, Q>,
}

impl<J, A, Q, L> StandingPool<J, A, Q, L>
where
    J: Job<A> + Drop + Send + 'static,
    J::Ctx: Drop + Send + Sync + 'static,
    J::Out: Send + 'static,
    J::Abandoned: Send + 'static,
    A: Allocator + Clone + Send + Sync + 'static,
    Q: Queue<J, A> + Send + Sync + 'static,
    Q::Row: Send + 'static,
    Q::Waker: Send + 'static,
    Q::Seat: Send + 'static,
    Q::Stop: Send + Sync + 'static,
    L: Lists<J::Out, A>,
{
    ghost use Rattle.std.specs.Prelude.{◌≡◌, ◌+◌, ◌≤◌, ◌↔◌, [], ◌∷◌, ◌++◌, vec_len, IfOk};
    ghost use Rattle.std.specs.Prelude.{IsErrOf};
    ghost use Rattle.worker_pool.specs.Accounts.{Account};
    ghost use Rattle.worker_pool.specs.Closings.{all_outs};
    ghost use Rattle.worker_pool.specs.Laws.{law_of};
    ghost use Rattle.worker_pool.specs.Openings.{IsOpened};
    ghost use Rattle.worker_pool.specs.Setup.{IsPoolSize, IsNoPoolSize, AreNoPartitions};
    ghost use Rattle.worker_pool.specs.Standing.{IsStanding, IsOnePool, roots_in, ctx_of};
    ghost use Rattle.worker_pool.specs.Standing.{queue_in, started_in};

    /// Opens a pool. A worker whose thread cannot be started takes no part.
    pub fn open<RT>(rt: &RT, alloc: A, setup: &Setup<A>, ctx: J::Ctx) -> Result<Self, PoolFault>
    where
        RT: Threads + Wait + Copy + Send + 'static,
        ensures bad_workers { IsErrOf result PoolFault.BadWorkers
            ↔ IsNoPoolSize setup.now.workers }
        ensures bad_partition { IsErrOf result PoolFault.BadPartition
            ↔ (IsPoolSize setup.now.workers
            × AreNoPartitions setup.now.workers setup.now.partitions.items) }
        ensures standing { IfOk result (IsStanding Q.Queue J.Job L.Lists) }
        ensures no_roots { IfOk result (λ pool. roots_in pool ≡ []) }
        ensures ctx { IfOk result (λ pool. ctx_of pool ≡ ctx) }
        ensures workers { IfOk result (λ pool.
            Q.worker_count (queue_in pool) ≡ setup.now.workers) }
    {
        let opened = open::<J, A, Q, L>(alloc, setup)?;
        Ok(Self::start_workers(rt, setup, opened, ctx)?)
    }

    /// Starts the workers of a pool that was opened with this setup.
    fn start_workers<RT>(
        rt: &RT,
        setup: &Setup<A>,
        opened: Opened<J, A, Q, L>,
        ctx: J::Ctx,
    ) -> Result<Self, AllocError>
    where
        RT: Threads + Wait + Copy + Send + 'static,
        requires opened { IsOpened Q.Queue setup.now.partitions.items J.Job L.Lists
            setup.now.workers opened }
        ensures standing { IfOk result (IsStanding Q.Queue J.Job L.Lists) }
        ensures queue { IfOk result (λ pool. queue_in pool ≡ opened.pool.queue) }
        ensures no_roots { IfOk result (λ pool. roots_in pool ≡ []) }
        ensures ctx { IfOk result (λ pool. ctx_of pool ≡ ctx) }
    {
        let Opened {
            pool,
            mut opener,
            states,
            ended,
            gathered,
        } = opened;
        let threads = room(&pool.alloc, setup.workers as usize)?;
        let alloc = pool.alloc.clone()?;
        let Ok(shared) = Arc::new(alloc, SharedWorkplace::new(OwnedPool { pool, ctx })) else {
            return Err(AllocError);
        };
        let (threads, ended) = start_each(rt, &shared, states, threads, ended);
        opener.seats.started = threads.len() as u32;
        opener.cancelled = false;
        Ok(StandingPool {
            shared,
            opener,
            threads,
            ended,
            gathered,
        })
    }

    /// Schedules a job. It goes to the back of a row that a random word picks, and one worker is
    /// woken. If the row is full, or no worker was started, the job runs at once on this thread.
    pub fn schedule<RT: Wait>(&mut self, rt: &RT, job: J)
        requires { IsStanding Q.Queue J.Job L.Lists self.old }
        ensures standing { IsStanding Q.Queue J.Job L.Lists self.new }
        ensures same { IsOnePool self.old self.new }
        ensures more { roots_in self.new ≡ roots_in self.old ++ job ∷ [] }
    {
        let owned = &self.shared.place;
        let (pool, opener) = (&owned.pool, &mut self.opener);
        schedule::<_, _, _, Q, L>(rt, &pool.queue, &pool.alloc, &owned.ctx, opener, job);
    }

    /// Returns how many workers were started, which is at most the number of the setup.
    pub fn workers(&self) -> u32
        requires { IsStanding Q.Queue J.Job L.Lists self.now }
        ensures started { result ≡ started_in self.now }
        ensures few { result ≤ Q.worker_count (queue_in self.now) }
    {
        self.opener.seats.started
    }

    /// Closes the pool once all jobs that were scheduled in it have run, and returns what they
    /// left.
    pub fn close<RT: Threads + Wait>(self, rt: &RT) -> Closed<J, A>
        requires { IsStanding Q.Queue J.Job L.Lists self }
        ensures lists { vec_len result.outs ≡ Q.worker_count (queue_in self) + 1 }
        ensures account { Account Q.keeps_accounts (law_of J.Job (ctx_of self))
            (roots_in self) [] (all_outs result.outs) result.left.items result.refused }
        ensures none_left { result.left.items ≡ [] }
    {
        let StandingPool {
            shared,
            mut opener,
            threads,
            ended,
            gathered,
        } = self;
        end::<_, _, _, Q, L>(rt, &shared.place.pool, &mut opener);
        let homes = join_all::<_, _, _, _, J, Q>(
            rt,
            &shared.place.pool.queue,
            &opener.seats.seat,
            threads,
            ended,
        );
        let OwnedPool { pool, ctx } = take_back(rt, shared).place;
        close(rt, pool, &ctx, opener, homes, gathered)
    }
}

/// A kind of standing pool. A contract over plain types names by it what is known of such a pool
/// while it is open.
pub trait Stands {
    // The pool is open, and has the account of the jobs that were scheduled in it.
    ghost is_standing: { Self → Type 0 };
}

impl<J, A, Q, L> Stands for StandingPool<J, A, Q, L>
where
    J: Job<A>,
    J::Ctx: Drop,
    A: Allocator + Clone,
    Q: Queue<J, A>,
    L: Lists<J::Out, A>,
{
    ghost use Rattle.worker_pool.specs.Standing.{IsStanding};

    ghost is_standing = { IsStanding Q.Queue J.Job L.Lists };
}
