//! Opening a pool. All memory that starting, ending and closing it need is allocated here; later
//! only the lists of outs grow. `specs/Openings` says what a new pool is.
ghost use Rattle.std.specs.Prelude.{◌≡◌, ◌+◌, ◌<◌, ◌↔◌, [], ◌∷◌, ◌++◌, map, All, IfOk};
ghost use Rattle.std.specs.Prelude.{IsErrOf, length};
ghost use Rattle.std.specs.List.{range_with_len};
ghost use Rattle.worker_pool.specs.Openings.{AreRows, AreWakers, IsByNumber, IsOpened};
ghost use Rattle.worker_pool.specs.Setup.{IsPoolSize, IsNoPoolSize, ArePartitions};
ghost use Rattle.worker_pool.specs.Setup.{AreNoPartitions};
ghost use Rattle.worker_pool.specs.Works.{IsPool, IsAtWork};

use crate::closing::gathered::{Gathered, room};
use crate::job::Job;
use crate::lists::Lists;
use crate::noted::Noted;
use crate::opening::opener_state::OpenerState;
use crate::opening::start::Home;
use crate::queues::queue::{NewQueue, Queue};
use crate::setup::{PoolFault, Setup};
use crate::working::home_rows::home_rows_of;
use crate::working::passes::OpenerSeat;
use crate::working::pool::Pool;
use crate::working::worker::WorkerState;
use rand_core::SeedableRng;
use rand_pcg::Lcg64Xsh32;
use std::alloc::{AllocError, Allocator};
use steal_walk::Coprimes;

/// A new pool, and the states that its threads work with.
#[derive(Drop)]
pub(crate) struct Opened<J, A, Q, L>
where
    J: Job<A>,
    A: Allocator,
    Q: Queue<J, A>,
    L: Lists<J::Out, A>,
{
    pub(crate) pool: Pool<J, A, Q>,
    pub(crate) opener: OpenerState<J, A, Q::Seat, L>,
    /// The state of each worker, by number.
    pub(crate) states: Vec<WorkerState<J, A, Q>, A>,
    /// An empty list, with room for the states of all workers once they have ended.
    pub(crate) ended: Vec<Home<WorkerState<J, A, Q>>, A>,
    /// Empty lists, with room for the seats and outs of all workers and of the opener.
    pub(crate) gathered: Gathered<J, A, Q>,
}

/// Opens the pool that the setup describes, in which nothing was done yet. Returns the setup's
/// fault if there is one.
pub(crate) fn open<J, A, Q, L>(alloc: A, setup: &Setup<A>) -> Result<Opened<J, A, Q, L>, PoolFault>
where
    J: Job<A>,
    A: Allocator + Clone,
    Q: Queue<J, A>,
    L: Lists<J::Out, A>,
    ensures bad_workers { IsErrOf result PoolFault.BadWorkers ↔ IsNoPoolSize setup.now.workers }
    ensures bad_partition { IsErrOf result PoolFault.BadPartition
        ↔ (IsPoolSize setup.now.workers
        × AreNoPartitions setup.now.workers setup.now.partitions.items) }
    ensures opened { IfOk result (IsOpened Q.Queue setup.now.partitions.items J.Job L.Lists
        setup.now.workers) }
{
    setup.check()?;
    Ok(open_checked::<J, A, Q, L>(alloc, setup)?)
}

/// Opens the pool of a setup that passed the check.
fn open_checked<J, A, Q, L>(alloc: A, setup: &Setup<A>) -> Result<Opened<J, A, Q, L>, AllocError>
where
    J: Job<A>,
    A: Allocator + Clone,
    Q: Queue<J, A>,
    L: Lists<J::Out, A>,
    requires size { IsPoolSize setup.now.workers }
    requires partitions { ArePartitions setup.now.workers setup.now.partitions.items }
    ensures opened { IfOk result (IsOpened Q.Queue setup.now.partitions.items J.Job L.Lists
        setup.now.workers) }
{
    let workers = setup.workers as usize;
    let gathered = Gathered::with_room(&alloc, workers + 1)?;
    let ended = room(&alloc, workers)?;
    let NewQueue {
        queue,
        stop,
        mut rows,
        mut wakers,
    } = Q::open(&alloc, setup.workers as u16)?;
    let coprimes = Coprimes::new(alloc.clone()?, setup.workers)?;
    let pool = Pool {
        queue,
        stop,
        coprimes,
        alloc,
    };
    let row = take_last(&mut rows);
    let waker = take_last(&mut wakers);
    let opener = OpenerState {
        seats: OpenerSeat {
            seat: pool.queue.seat(&pool.stop, row, waker),
            random: Lcg64Xsh32::seed_from_u64(u64::from(setup.workers)),
            started: 0,
        },
        noted: Noted::nothing(),
        outs: L::new(pool.alloc.clone()?),
        refused: 0,
        cancelled: false,
    };
    let states = worker_states(&pool, setup, rows, wakers)?;
    Ok(Opened {
        pool,
        opener,
        states,
        ended,
        gathered,
    })
}

/// Removes the last item of the list, and returns it.
fn take_last<T, A: Allocator>(list: &mut Vec<T, A>) -> T
    requires { 0 < length list.old.items }
    ensures { list.old.items ≡ list.new.items ++ result ∷ [] }
{
    let Some(last) = list.pop() else {
        unreachable!()
    };
    last
}

/// Returns the state of each worker, by number.
fn worker_states<J, A, Q>(
    pool: &Pool<J, A, Q>,
    setup: &Setup<A>,
    rows: Vec<Q::Row, A>,
    wakers: Vec<Q::Waker, A>,
) -> Result<Vec<WorkerState<J, A, Q>, A>, AllocError>
where
    J: Job<A>,
    A: Allocator + Clone,
    Q: Queue<J, A>,
    requires pool { IsPool Q.Queue pool.now }
    requires same_size { setup.now.workers ≡ Q.worker_count pool.now.queue }
    requires partitions { ArePartitions setup.now.workers setup.now.partitions.items }
    requires rows { AreRows Q.Queue pool.now.queue 0 rows.items }
    requires wakers { AreWakers Q.Queue pool.now.queue 0 wakers.items }
    requires rows_many { length rows.items ≡ Q.worker_count pool.now.queue }
    requires wakers_many { length wakers.items ≡ Q.worker_count pool.now.queue }
    ensures at_work { IfOk result (λ states. (ctx : J.Ctx) →
        All (IsAtWork Q.Queue J.Job pool.now ctx) states.items) }
    ensures numbers { IfOk result (λ states.
        map (λ state. state.number) states.items
        ≡ range_with_len 0 (Q.worker_count pool.now.queue)) }
    ensures by_number { IfOk result (λ states. All (IsByNumber Q.Queue
        setup.now.partitions.items setup.now.workers) states.items) }
{
    let mut states = room(&pool.alloc, rows.len())?;
    for (row, waker) in rows.into_iter().zip(wakers) {
        let number = states.len() as u32;
        states.push_reserved(state_of(pool, setup, number, row, waker)?);
    }
    Ok(states)
}

/// Returns the state of the worker `number`, with its seats.
fn state_of<J, A, Q>(
    pool: &Pool<J, A, Q>,
    setup: &Setup<A>,
    number: u32,
    row: Q::Row,
    waker: Q::Waker,
) -> Result<WorkerState<J, A, Q>, AllocError>
where
    J: Job<A>,
    A: Allocator + Clone,
    Q: Queue<J, A>,
    requires pool { IsPool Q.Queue pool.now }
    requires same_size { setup.now.workers ≡ Q.worker_count pool.now.queue }
    requires partitions { ArePartitions setup.now.workers setup.now.partitions.items }
    requires number { number < setup.now.workers }
    requires row { Q.is_row pool.now.queue row }
    requires waker { Q.is_waker pool.now.queue waker }
    requires row_number { Q.row_number row ≡ number }
    requires waker_number { Q.waker_number waker ≡ number }
    requires untouched { Q.keeps_accounts → (Q.puts_of row ≡ []) × (Q.takes_of row ≡ []) }
    ensures at_work { IfOk result (λ state. (ctx : J.Ctx) →
        IsAtWork Q.Queue J.Job pool.now ctx state) }
    ensures number { IfOk result (λ state. state.number ≡ number) }
    ensures by_number { IfOk result (IsByNumber Q.Queue setup.now.partitions.items
        setup.now.workers) }
{
    let home = home_rows_of(&pool.alloc, setup, number)?;
    let outs = Vec::new(pool.alloc.clone()?);
    Ok(WorkerState {
        number,
        home,
        seat: pool.queue.seat(&pool.stop, row, waker),
        random: Lcg64Xsh32::seed_from_u64(u64::from(number)),
        outs,
        refused: 0,
    })
}
