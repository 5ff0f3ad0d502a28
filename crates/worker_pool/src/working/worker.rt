//! A worker's turns. The order in which a worker looks for jobs is in no contract. A contract says
//! that it ends only once it may (`may_end` of `queues/queue.rt`).
ghost use Rattle.std.specs.Prelude.{◌≡◌, ◌<◌, ◌++◌, All, option_to_list};
ghost use Rattle.steal_walk.specs.Walk.{VisitsEachOnce};
ghost use Rattle.worker_pool.specs.Setup.{IsPoolSize};
ghost use Rattle.worker_pool.specs.Stops.{open_word};
ghost use Rattle.worker_pool.specs.Turns.{jobs_in, IfLast};
ghost use Rattle.worker_pool.specs.Works.{IsPool, IsAtWork, IsInside, HasEnded};

use crate::gate::Gate;
use crate::job::Job;
use crate::lists::VecLists;
use crate::queues::queue::Queue;
use crate::working::home_rows::HomeRows;
use crate::working::passes::ByWorker;
use crate::working::pool::Pool;
use crate::working::run::begin;
use rand_core::utils::NextWord;
use rand_pcg::Lcg64Xsh32;
use std::alloc::Allocator;
use std::sync::Wait;
use std::thread::yield_now;
use steal_walk::Walk;
use waking_rows::Rested;

/// A worker's number, seat, random words and outs.
#[derive(Drop)]
pub(crate) struct WorkerState<J, A, Q>
where
    J: Job<A>,
    A: Allocator,
    Q: Queue<J, A>,
{
    pub(crate) number: u32,
    /// The worker's partition, or `None` if it is the whole pool.
    pub(crate) home: Option<HomeRows<A>>,
    pub(crate) seat: Q::Seat,
    pub(crate) random: Lcg64Xsh32,
    pub(crate) outs: Vec<J::Out, A>,
    pub(crate) refused: u64,
}

/// How a turn ended.
#[derive(Drop)]
pub(crate) enum Turn<J> {
    /// The turn found this job, which is to be run.
    Found(J),
    /// The turn found no job, and the worker takes another turn.
    Again,
    /// The turn was the last: it found no job in a pool that is closing, or the pool was cancelled.
    Last,
}

/// Takes turns, and runs the jobs that they find, until a turn is the last: no job is found in a
/// pool that is closing, or the pool was cancelled.
pub(crate) fn take_turns<RT, J, A, Q, G>(
    rt: &RT,
    pool: &Pool<J, A, Q>,
    ctx: &J::Ctx,
    gate: &G,
    state: WorkerState<J, A, Q>,
) -> WorkerState<J, A, Q>
where
    RT: Wait,
    J: Job<A>,
    A: Allocator + Clone,
    Q: Queue<J, A>,
    G: Gate,
    requires { IsAtWork Q.Queue J.Job pool.now ctx.now state }
    ensures at_work { IsAtWork Q.Queue J.Job pool.now ctx.now result }
    ensures ended { HasEnded Q.Queue pool.now state result }
{
    let WorkerState {
        number,
        home,
        mut seat,
        mut random,
        mut outs,
        mut refused,
    } = state;
    let mut turn: u64 = 0;
    for _ in rt.forever() {
        gate.before(number, turn);
        turn = turn.saturating_add(1);
        match take_turn(rt, pool, &home, &mut seat, &mut random) {
            Turn::Found(job) => {
                let more = begin::<_, _, _, VecLists, ByWorker<A, Q>>(
                    rt,
                    &pool.alloc,
                    ctx,
                    &pool.queue,
                    &mut seat,
                    &mut outs,
                    job,
                );
                refused = refused.saturating_add(more);
            }
            Turn::Again => {}
            Turn::Last => {
                return WorkerState {
                    number,
                    home,
                    seat,
                    random,
                    outs,
                    refused,
                };
            }
        }
    }
    unreachable!()
}

/// Takes one turn. It looks in the worker's own row, then in its partition, then in all rows. If it
/// finds no job, it rests. In a cancelled pool it ends at once.
fn take_turn<RT, J, A, Q>(
    rt: &RT,
    pool: &Pool<J, A, Q>,
    home: &Option<HomeRows<A>>,
    seat: &mut Q::Seat,
    random: &mut Lcg64Xsh32,
) -> Turn<J>
where
    RT: Wait,
    A: Allocator,
    Q: Queue<J, A>,
    requires pool { IsPool Q.Queue pool.now }
    requires home { IsInside (Q.worker_count pool.now.queue) home.now }
    requires ready { Q.is_ready pool.now.queue seat.old }
    requires owner { Q.row_number (Q.row_of seat.old) < Q.worker_count pool.now.queue }
    requires stored_none { Q.stored_of seat.old ≡ open_word }
    ensures ready { Q.is_ready pool.now.queue seat.new }
    ensures number { Q.row_number (Q.row_of seat.new) ≡ Q.row_number (Q.row_of seat.old) }
    ensures stored_none { Q.stored_of seat.new ≡ open_word }
    ensures puts { Q.keeps_accounts
        → Q.puts_of (Q.row_of seat.new) ≡ Q.puts_of (Q.row_of seat.old) }
    ensures takes { Q.keeps_accounts → Q.takes_of (Q.row_of seat.new)
        ≡ Q.takes_of (Q.row_of seat.old) ++ jobs_in result }
    ensures last { IfLast result (Q.may_end pool.now.queue seat.new) }
{
    let queue = &pool.queue;
    if queue.is_cancelled(&pool.stop, seat) {
        return Turn::Last;
    }
    if let Some(job) = queue.take_front(rt, seat) {
        return Turn::Found(job);
    }
    if let Some(home) = home {
        if let Some(job) = steal(rt, queue, seat, home.walk(random)) {
            return Turn::Found(job);
        }
    }
    if let Some(job) = steal(rt, queue, seat, walk_of(pool, random)) {
        return Turn::Found(job);
    }
    match queue.rest(rt, &pool.stop, seat, walk_of(pool, random)) {
        Rested::Slept => Turn::Again,
        Rested::Jobs(row) => match queue.take_back(rt, seat, row) {
            Some(job) => Turn::Found(job),
            None => {
                yield_now();
                Turn::Again
            }
        },
        Rested::Ended => Turn::Last,
    }
}

/// Takes the last job of the first row of the walk that has one.
fn steal<RT, J, A, Q>(rt: &RT, queue: &Q, seat: &mut Q::Seat, walk: Walk) -> Option<J>
where
    RT: Wait,
    A: Allocator,
    Q: Queue<J, A>,
    requires size { IsPoolSize (Q.worker_count queue.now) }
    requires ready { Q.is_ready queue.now seat.old }
    requires walk { All (λ row. row < Q.worker_count queue.now) walk }
    ensures ready { Q.is_ready queue.now seat.new }
    ensures number { Q.row_number (Q.row_of seat.new) ≡ Q.row_number (Q.row_of seat.old) }
    ensures stored { Q.stored_of seat.new ≡ Q.stored_of seat.old }
    ensures puts { Q.keeps_accounts
        → Q.puts_of (Q.row_of seat.new) ≡ Q.puts_of (Q.row_of seat.old) }
    ensures takes { Q.keeps_accounts → Q.takes_of (Q.row_of seat.new)
        ≡ Q.takes_of (Q.row_of seat.old) ++ option_to_list result }
{
    for row in walk {
        if let Some(job) = queue.take_back(rt, seat, row as u16) {
            return Some(job);
        }
    }
    None
}

/// Returns the walk over all rows that the next random word picks.
fn walk_of<J, A, Q>(pool: &Pool<J, A, Q>, random: &mut Lcg64Xsh32) -> Walk
where
    A: Allocator,
    Q: Queue<J, A>,
    requires { IsPool Q.Queue pool.now }
    ensures inside { All (λ row. row < Q.worker_count pool.now.queue) result }
    ensures once { VisitsEachOnce 0 (Q.worker_count pool.now.queue) result }
{
    let workers = u32::from(pool.queue.workers());
    Walk::of(random.next_word(), 0, workers, &pool.coprimes)
}
