//! The bodies that the tests' pools run. `runs.rt` and `trees.rt` open their pools by `run_all`.
ghost use Rattle.std.specs.Prelude.{◌≤◌};
ghost use Rattle.worker_pool.specs.Callers.{IsCaller, StaysCaller, started_of};

use crate::watch::Watch;
use event_count::WaitPoint;
use run_queue::Rows;
use std::alloc::Global;
use std::sync::Wait;
use std::sync::atomic::Ordering;
use std::thread::Threads;
use worker_pool::{Caller, Closed, Job, Lists, PoolFault, Setup, with_pool, with_pool_limited};

/// Schedules the jobs, and lets the watch look on after each.
fn schedule_all<RT, J, W, R, L>(
    rt: &RT,
    caller: &mut Caller<'_, J, Global, W, R, L>,
    jobs: Vec<J>,
    watch: &Watch,
)
where
    RT: Wait,
    J: Job<Global> + Drop,
    J::Out: Drop,
    W: WaitPoint<Global>,
    R: Rows<J, Global>,
    L: Lists<J::Out, Global>,
    requires { IsCaller R.Rows W.WaitPoint J.Job L.Lists caller.old }
    ensures { StaysCaller R.Rows W.WaitPoint J.Job L.Lists caller.old caller.new }
{
    for job in jobs {
        caller.schedule(rt, job);
        watch.look_on();
    }
}

/// Schedules the first jobs. If there are jobs for a cancelled pool, cancels the pool and schedules
/// them. Then lets go the workers that are held.
fn schedule_both<RT, J, W, R, L>(
    rt: &RT,
    caller: &mut Caller<'_, J, Global, W, R, L>,
    first: Vec<J>,
    cancelled: Vec<J>,
    watch: &Watch,
)
where
    RT: Wait,
    J: Job<Global> + Drop,
    J::Out: Drop,
    W: WaitPoint<Global>,
    R: Rows<J, Global>,
    L: Lists<J::Out, Global>,
    requires { IsCaller R.Rows W.WaitPoint J.Job L.Lists caller.old }
    ensures { StaysCaller R.Rows W.WaitPoint J.Job L.Lists caller.old caller.new }
{
    schedule_all(rt, caller, first, watch);
    if !cancelled.is_empty() {
        caller.cancel(rt);
    }
    schedule_all(rt, caller, cancelled, watch);
    watch.let_go.store(1, Ordering::SeqCst);
}

/// Opens a pool whose body schedules the first jobs. If there are jobs for a cancelled pool, the
/// body cancels the pool and schedules them. If the watch limits the workers that are started, the
/// body reports to the watch how many were started.
pub(crate) fn run_all<W, R, L, RT, J>(
    rt: &RT,
    alloc: Global,
    setup: &Setup,
    ctx: &J::Ctx,
    watch: &Watch,
    first: Vec<J>,
    cancelled: Vec<J>,
) -> Result<Closed<J>, PoolFault>
where
    RT: Threads + Wait + Sync,
    J: Job<Global> + Drop + Send,
    J::Ctx: Sync,
    J::Out: Drop + Send,
    J::Abandoned: Send,
    W: WaitPoint<Global> + Sync,
    W::Seat: Send,
    R: Rows<J, Global> + Sync,
    R::Seat: Send,
    L: Lists<J::Out, Global>,
{
    let Some(starts) = watch.starts else {
        return with_pool::<W, R, L, RT, J, Global, Watch, _>(
            rt,
            alloc,
            setup,
            ctx,
            watch,
            |caller: &mut Caller<'_, J, Global, W, R, L>|
                requires { IsCaller R.Rows W.WaitPoint J.Job L.Lists caller.old }
                ensures { StaysCaller R.Rows W.WaitPoint J.Job L.Lists caller.old caller.new }
            { schedule_both(rt, caller, first, cancelled, watch) },
        );
    };
    with_pool_limited::<W, R, L, RT, J, Global, Watch, _>(
        rt,
        alloc,
        setup,
        ctx,
        watch,
        starts,
        |caller: &mut Caller<'_, J, Global, W, R, L>|
            requires caller { IsCaller R.Rows W.WaitPoint J.Job L.Lists caller.old }
            requires few { started_of caller.old ≤ starts }
            ensures { StaysCaller R.Rows W.WaitPoint J.Job L.Lists caller.old caller.new }
        {
            let workers = caller.workers();
            prove!(workers <= starts);
            watch.tell(workers);
            schedule_both(rt, caller, first, cancelled, watch)
        },
    )
}
