//! The seats, outs and refusals of the workers that have come home. The memory for them is
//! allocated when the pool is opened.
ghost use Rattle.std.specs.Prelude.{◌≡◌, ℕ, ◌+◌, [], vec_capacity, IfOk};

use crate::job::Job;
use crate::queues::queue::Queue;
use crate::working::worker::WorkerState;
use std::alloc::{AllocError, Allocator};

/// The seats of the workers that have come home, the outs of their jobs, and how many jobs were
/// refused.
#[derive(Drop)]
pub(crate) struct Gathered<J, A, Q>
where
    J: Job<A>,
    A: Allocator,
    Q: Queue<J, A>,
{
    pub(crate) rows: Vec<Q::Row, A>,
    pub(crate) wakers: Vec<Q::Waker, A>,
    pub(crate) lists: Vec<Vec<J::Out, A>, A>,
    pub(crate) refused: u64,
}

impl<J, A, Q> Gathered<J, A, Q>
where
    J: Job<A>,
    A: Allocator + Clone,
    Q: Queue<J, A>,
{
    ghost use Rattle.worker_pool.specs.Gathered.{Adds, HasRoom, IsEmpty};

    /// Returns empty lists, with room for what `count` threads bring.
    pub(crate) fn with_room(alloc: &A, count: usize) -> Result<Self, AllocError>
        ensures empty { IfOk result IsEmpty }
        ensures room { IfOk result (HasRoom count) }
    {
        Ok(Gathered {
            rows: room(alloc, count)?,
            wakers: room(alloc, count)?,
            lists: room(alloc, count)?,
            refused: 0,
        })
    }

    /// Adds a worker that comes home to this queue with this state.
    pub(crate) fn add(&mut self, queue: &Q, state: WorkerState<J, A, Q>)
        requires ready { Q.is_ready queue.now state.seat }
        requires room { HasRoom 1 self.old }
        ensures adds { Adds Q.Queue queue.now state self.old self.new }
        ensures room { (more : ℕ) → HasRoom (more + 1) self.old → HasRoom more self.new }
    {
        let WorkerState {
            seat,
            outs,
            refused,
            ..
        } = state;
        let (row, waker) = queue.parts(seat);
        self.rows.push_reserved(row);
        self.wakers.push_reserved(waker);
        self.lists.push_reserved(outs);
        self.refused = self.refused.saturating_add(refused);
    }
}

/// Returns an empty list with room for `count` items.
pub(crate) fn room<T: Drop, A: Allocator + Clone>(
    alloc: &A,
    count: usize,
) -> Result<Vec<T, A>, AllocError>
    ensures empty { IfOk result (λ list. list.items ≡ []) }
    ensures room { IfOk result (λ list. vec_capacity list ≡ count) }
{
    Vec::with_capacity(alloc.clone()?, count)
}
