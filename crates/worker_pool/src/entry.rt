//! The calls that open a pool for one call, run jobs in it, and close it. They differ in the queue
//! and in the work of the opener (`opening/lending.rt`, `opening/root.rt`).
ghost use Rattle.std.specs.Prelude.{◌≡◌, ◌+◌, ◌<◌, ◌≤◌, ◌↔◌, [], ◌∷◌, vec_len, IfOk};
ghost use Rattle.std.specs.Prelude.{IsErrOf};
ghost use Rattle.std.specs.Fn.{FnOnceReturnsAtMut};
ghost use Rattle.worker_pool.specs.Accounts.{Account};
ghost use Rattle.worker_pool.specs.Callers.{IsCaller, StaysCaller, started_of};
ghost use Rattle.worker_pool.specs.Closings.{HasClosed, all_outs};
ghost use Rattle.worker_pool.specs.Laws.{law_of};
ghost use Rattle.worker_pool.specs.Scheduled.{HasScheduled, HasScheduledIn, IsOnOneCount};
ghost use Rattle.worker_pool.specs.Setup.{IsPoolSize, IsNoPoolSize, AreNoPartitions};

use crate::caller::Caller;
use crate::closed::Closed;
use crate::closing::close::close;
use crate::gate::Gate;
use crate::job::Job;
use crate::lists::Lists;
use crate::opening::lending::LendsCaller;
use crate::opening::open::{Opened, open};
use crate::opening::root::{Scheduled, SchedulesRoot};
use crate::opening::start::run_first;
use crate::opening::workplace::PoolWorkplace;
use crate::queues::counted_queue::{CountedQueue, CountedSeat};
use crate::queues::job_queue::JobQueue;
use crate::queues::queue::Queue;
use crate::setup::{PoolFault, Setup};
use event_count::WaitPoint;
use run_queue::Rows;
use std::alloc::Allocator;
use std::sync::Wait;
use std::thread::Threads;

/// Opens a pool, and lends a caller to `body`. Workers run the jobs that the body schedules, and
/// their kids. Returns once all jobs have run. If the body cancelled the pool, the jobs that nobody
/// ran are handed back.
///
/// `gate` is called before each turn of a worker. Rows and wait point are opened separately.
pub fn with_pool<W, R, L, RT, J, A, G, F>(
    rt: &RT,
    alloc: A,
    setup: &Setup<A>,
    ctx: &J::Ctx,
    gate: &G,
    body: F,
) -> Result<Closed<J, A>, PoolFault>
where
    RT: Threads + Wait + Sync,
    J: Job<A> + Drop + Send,
    J::Ctx: Sync,
    J::Out: Send,
    J::Abandoned: Send,
    A: Allocator + Clone + Send + Sync,
    W: WaitPoint<A> + Sync,
    W::Seat: Send,
    R: Rows<J, A> + Sync,
    R::Seat: Send,
    L: Lists<J::Out, A>,
    G: Gate + Sync,
    F: FnOnce(&mut Caller<'_, J, A, W, R, L>) + Drop,
    requires body { (caller : _) → IsCaller R.Rows W.WaitPoint J.Job L.Lists caller.now
        → F.pre body caller }
    requires stays { (before : _) → (after : _)
        → FnOnceReturnsAtMut F.FnOnce body before tt after
        → IsCaller R.Rows W.WaitPoint J.Job L.Lists before
        → StaysCaller R.Rows W.WaitPoint J.Job L.Lists before after }
    ensures bad_workers { IsErrOf result PoolFault.BadWorkers ↔ IsNoPoolSize setup.now.workers }
    ensures bad_partition { IsErrOf result PoolFault.BadPartition
        ↔ (IsPoolSize setup.now.workers
        × AreNoPartitions setup.now.workers setup.now.partitions.items) }
    ensures lists { IfOk result (λ closed. vec_len closed.outs ≡ setup.now.workers + 1) }
    ensures account { IfOk result (λ closed. (before : _) × (after : _)
        × FnOnceReturnsAtMut F.FnOnce body before tt after
        × HasClosed R.Rows L.Lists (law_of J.Job ctx.now) setup.now.workers setup.now.workers
        before after (all_outs closed.outs) closed.left.items closed.refused) }
{
    with_pool_limited::<W, R, L, _, _, _, _, _>(rt, alloc, setup, ctx, gate, setup.workers, body)
}

/// Does what `with_pool` does, but starts only the workers with numbers below `starts`, as if the
/// threads of the other workers could not be started.
pub fn with_pool_limited<W, R, L, RT, J, A, G, F>(
    rt: &RT,
    alloc: A,
    setup: &Setup<A>,
    ctx: &J::Ctx,
    gate: &G,
    starts: u32,
    body: F,
) -> Result<Closed<J, A>, PoolFault>
where
    RT: Threads + Wait + Sync,
    J: Job<A> + Drop + Send,
    J::Ctx: Sync,
    J::Out: Send,
    J::Abandoned: Send,
    A: Allocator + Clone + Send + Sync,
    W: WaitPoint<A> + Sync,
    W::Seat: Send,
    R: Rows<J, A> + Sync,
    R::Seat: Send,
    L: Lists<J::Out, A>,
    G: Gate + Sync,
    F: FnOnce(&mut Caller<'_, J, A, W, R, L>) + Drop,
    requires body { (caller : _) → IsCaller R.Rows W.WaitPoint J.Job L.Lists caller.now
        → started_of caller.now ≤ starts
        → F.pre body caller }
    requires stays { (before : _) → (after : _)
        → FnOnceReturnsAtMut F.FnOnce body before tt after
        → IsCaller R.Rows W.WaitPoint J.Job L.Lists before
        → started_of before ≤ starts
        → StaysCaller R.Rows W.WaitPoint J.Job L.Lists before after }
    ensures bad_workers { IsErrOf result PoolFault.BadWorkers ↔ IsNoPoolSize setup.now.workers }
    ensures bad_partition { IsErrOf result PoolFault.BadPartition
        ↔ (IsPoolSize setup.now.workers
        × AreNoPartitions setup.now.workers setup.now.partitions.items) }
    ensures lists { IfOk result (λ closed. vec_len closed.outs ≡ setup.now.workers + 1) }
    ensures account { IfOk result (λ closed. (before : _) × (after : _)
        × FnOnceReturnsAtMut F.FnOnce body before tt after
        × HasClosed R.Rows L.Lists (law_of J.Job ctx.now) setup.now.workers starts
        before after (all_outs closed.outs) closed.left.items closed.refused) }
{
    let Opened {
        pool,
        opener,
        states,
        ended,
        gathered,
    } = open::<J, A, JobQueue<W, R>, L>(alloc, setup)?;
    let lends = LendsCaller {
        rt,
        pool: &pool,
        ctx,
        opener,
        body,
    };
    let place = PoolWorkplace {
        pool: &pool,
        ctx,
        gate,
    };
    let (homes, opener) = run_first(rt, &place, starts, states, ended, lends);
    Ok(close::<_, _, _, JobQueue<W, R>, L>(rt, pool, ctx, opener, homes, gathered))
}

/// Opens a pool over one event count, schedules the job `root` in it, and then calls `then`, while
/// workers run the job and its kids. Returns once all of them have run. No job lies forgotten in a
/// row while all workers sleep.
pub fn with_counted_root<L, RT, J, A, G, F>(
    rt: &RT,
    alloc: A,
    setup: &Setup<A>,
    ctx: &J::Ctx,
    gate: &G,
    root: J,
    then: F,
) -> Result<Closed<J, A>, PoolFault>
where
    RT: Threads + Wait + Sync,
    J: Job<A> + Drop + Send,
    J::Ctx: Sync,
    J::Out: Send,
    J::Abandoned: Send,
    A: Allocator + Clone + Send + Sync,
    L: Lists<J::Out, A>,
    G: Gate + Sync,
    F: FnOnce(Scheduled<J, CountedSeat<J>>) + Drop,
    requires then { (scheduled : _) → HasScheduled root scheduled → IsOnOneCount scheduled
        → F.pre then scheduled }
    ensures bad_workers { IsErrOf result PoolFault.BadWorkers ↔ IsNoPoolSize setup.now.workers }
    ensures bad_partition { IsErrOf result PoolFault.BadPartition
        ↔ (IsPoolSize setup.now.workers
        × AreNoPartitions setup.now.workers setup.now.partitions.items) }
    ensures lists { IfOk result (λ closed. vec_len closed.outs ≡ setup.now.workers + 1) }
    ensures account { IfOk result (λ closed.
        Account (Unit {0}) (law_of J.Job ctx.now) (root ∷ []) [] (all_outs closed.outs)
        closed.left.items closed.refused) }
    ensures none_left { IfOk result (λ closed. closed.left.items ≡ []) }
{
    with_root_over::<CountedQueue<J, A>, L, _, _, _, _, _>(rt, alloc, setup, ctx, gate, root, then)
}

/// Does what `with_counted_root` does, over any queue.
fn with_root_over<Q, L, RT, J, A, G, F>(
    rt: &RT,
    alloc: A,
    setup: &Setup<A>,
    ctx: &J::Ctx,
    gate: &G,
    root: J,
    then: F,
) -> Result<Closed<J, A>, PoolFault>
where
    RT: Threads + Wait + Sync,
    J: Job<A> + Drop + Send,
    J::Ctx: Sync,
    J::Out: Send,
    J::Abandoned: Send,
    A: Allocator + Clone + Send + Sync,
    Q: Queue<J, A> + Sync,
    Q::Row: Send,
    Q::Waker: Send,
    Q::Seat: Send,
    Q::Stop: Sync,
    L: Lists<J::Out, A>,
    G: Gate + Sync,
    F: FnOnce(Scheduled<J, Q::Seat>) + Drop,
    requires then { (queue : _) → (scheduled : _)
        → HasScheduledIn Q.Queue queue root scheduled → F.pre then scheduled }
    ensures bad_workers { IsErrOf result PoolFault.BadWorkers ↔ IsNoPoolSize setup.now.workers }
    ensures bad_partition { IsErrOf result PoolFault.BadPartition
        ↔ (IsPoolSize setup.now.workers
        × AreNoPartitions setup.now.workers setup.now.partitions.items) }
    ensures lists { IfOk result (λ closed. vec_len closed.outs ≡ setup.now.workers + 1) }
    ensures account { IfOk result (λ closed.
        Account Q.keeps_accounts (law_of J.Job ctx.now) (root ∷ []) [] (all_outs closed.outs)
        closed.left.items closed.refused) }
    ensures none_left { IfOk result (λ closed. closed.left.items ≡ []) }
{
    let Opened {
        pool,
        opener,
        states,
        ended,
        gathered,
    } = open::<J, A, Q, L>(alloc, setup)?;
    let opening = SchedulesRoot {
        rt,
        pool: &pool,
        ctx,
        opener,
        root,
        then,
    };
    let place = PoolWorkplace {
        pool: &pool,
        ctx,
        gate,
    };
    let (homes, opener) = run_first(rt, &place, setup.workers, states, ended, opening);
    Ok(close::<_, _, _, Q, L>(rt, pool, ctx, opener, homes, gathered))
}
