//! Closing a pool whose workers have all ended. `specs/Closings`, `Gathered` and `Ran` say what it
//! leaves, and its accounts become the account of the whole pool.
ghost use Rattle.std.specs.Prelude.{◌≡◌, ◌+◌, List, [], All, true, false, length, vec_len};
ghost use Rattle.worker_pool.specs.Accounts.{Account};
ghost use Rattle.worker_pool.specs.Closings.{IsHandedBack, all_outs};
ghost use Rattle.worker_pool.specs.Gathered.{HasGathered, HasRoom, IsEmpty, count_of};
ghost use Rattle.worker_pool.specs.Ran.{AreSettled};
ghost use Rattle.worker_pool.specs.Laws.{law_of};
ghost use Rattle.worker_pool.specs.Works.{IsPool, IsAtWork};

use crate::closed::Closed;
use crate::closing::closer::ByCloser;
use crate::closing::gathered::Gathered;
use crate::job::Job;
use crate::lists::Lists;
use crate::opening::opener_state::OpenerState;
use crate::opening::start::Home;
use crate::queues::queue::Queue;
use crate::working::pool::Pool;
use crate::working::run::begin;
use crate::working::worker::WorkerState;
use std::alloc::Allocator;
use std::sync::Wait;

/// Ends a pool, and runs the jobs that are left in its rows, or hands them back if the pool was
/// cancelled. From here on only the list of the caller's outs grows.
pub(crate) fn close<RT, J, A, Q, L>(
    rt: &RT,
    pool: Pool<J, A, Q>,
    ctx: &J::Ctx,
    opener: OpenerState<J, A, Q::Seat, L>,
    homes: Vec<Home<WorkerState<J, A, Q>>, A>,
    gathered: Gathered<J, A, Q>,
) -> Closed<J, A>
where
    RT: Wait,
    J: Job<A>,
    A: Allocator + Clone,
    Q: Queue<J, A>,
    L: Lists<J::Out, A>,
    requires pool { IsPool Q.Queue pool }
    requires ready { Q.is_ready pool.queue opener.seats.seat }
    requires took_none { Q.keeps_accounts → Q.takes_of (Q.row_of opener.seats.seat) ≡ [] }
    requires at_work { All (λ home. IsAtWork Q.Queue J.Job pool ctx.now home.state) homes.items }
    requires every_worker { vec_len homes ≡ Q.worker_count pool.queue }
    requires none_gathered { IsEmpty gathered }
    requires room { HasRoom (Q.worker_count pool.queue + 1) gathered }
    ensures lists { vec_len result.outs ≡ Q.worker_count pool.queue + 1 }
    ensures none_left { opener.cancelled ≡ false → result.left.items ≡ [] }
    ensures handed_back { opener.cancelled ≡ true → IsHandedBack Q.keeps_accounts
        (law_of J.Job ctx.now) (Q.puts_of (Q.row_of opener.seats.seat)) (L.items_of opener.outs)
        opener.refused (all_outs result.outs) result.left.items result.refused }

    // The jobs that came to the opener are the jobs that came in, and no job is passed on any more.
    ensures account { (roots : List J) → Account Q.keeps_accounts
        (law_of J.Job ctx.now) roots (Q.puts_of (Q.row_of opener.seats.seat))
        (L.items_of opener.outs) [] opener.refused
        → Account Q.keeps_accounts (law_of J.Job ctx.now) roots []
        (all_outs result.outs) result.left.items result.refused }
{
    let Gathered {
        mut rows,
        mut wakers,
        mut lists,
        refused: workers_refused,
    } = gather(&pool.queue, homes, gathered);
    let OpenerState {
        seats,
        mut outs,
        refused,
        cancelled,
        ..
    } = opener;
    let (row, waker) = pool.queue.parts(seats.seat);
    rows.push_reserved(row);
    wakers.push_reserved(waker);
    let Pool {
        queue,
        stop,
        alloc,
        ..
    } = pool;
    let mut left = queue.end(stop, &mut rows, &mut wakers);
    let refused = settle::<_, _, _, Q, L>(
        rt, &alloc, ctx, cancelled, &mut left, &mut outs, refused,
    );
    lists.push_reserved(L::into_vec(outs));
    Closed {
        outs: lists,
        left,
        refused: workers_refused.saturating_add(refused),
    }
}

/// Adds the states of all workers, by number.
fn gather<J, A, Q>(
    queue: &Q,
    homes: Vec<Home<WorkerState<J, A, Q>>, A>,
    mut gathered: Gathered<J, A, Q>,
) -> Gathered<J, A, Q>
where
    J: Job<A>,
    A: Allocator + Clone,
    Q: Queue<J, A>,
    requires ready { All (λ home. Q.is_ready queue.now home.state.seat) homes.items }
    requires none { IsEmpty gathered }
    requires room { HasRoom (length homes.items + 1) gathered }
    ensures many { count_of result ≡ length homes.items }
    ensures room { HasRoom 1 result }
    ensures home { (pool : _) → (ctx : _)
        → All (λ home. IsAtWork Q.Queue J.Job pool ctx home.state) homes.items
        → HasGathered Q.Queue queue.now J.Job ctx result }
{
    for home in homes {
        gathered.add(queue, home.state);
    }
    gathered
}

/// Runs the jobs one after the other, each with all its kids, unless the pool was cancelled.
/// Returns `before` plus the number of jobs that were refused here.
fn settle<RT, J, A, Q, L>(
    rt: &RT,
    alloc: &A,
    ctx: &J::Ctx,
    cancelled: bool,
    left: &mut Vec<J, A>,
    outs: &mut L::List,
    before: u64,
) -> u64
where
    RT: Wait,
    J: Job<A>,
    A: Allocator + Clone,
    Q: Queue<J, A>,
    L: Lists<J::Out, A>,
    ensures none_left { cancelled ≡ false → left.new.items ≡ [] }
    ensures kept { cancelled ≡ true → left.new.items ≡ left.old.items }
    ensures same_outs { cancelled ≡ true → L.items_of outs.new ≡ L.items_of outs.old }
    ensures same { cancelled ≡ true → result ≡ before }
    ensures settled { AreSettled Q.keeps_accounts (law_of J.Job ctx.now) left.old.items
        (L.items_of outs.old) (L.items_of outs.new) left.new.items before result }
{
    if cancelled {
        return before;
    }
    let mut refused = before;
    while let Some(job) = left.pop() {
        let more = begin::<_, _, _, L, ByCloser<A, Q>>(rt, alloc, ctx, &(), &mut (), outs, job);
        refused = refused.saturating_add(more);
    }
    refused
}
