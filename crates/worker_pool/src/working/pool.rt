//! What all threads of a pool share. It is made in `opening/open.rt` and taken apart in
//! `closing/close.rt`.
use crate::queues::queue::Queue;
use std::alloc::Allocator;
use steal_walk::Coprimes;

/// The queue of jobs, its stop, the coprimes for walks over all rows, and the allocator.
#[derive(Drop)]
pub(crate) struct Pool<J, A: Allocator, Q: Queue<J, A>> {
    pub(crate) queue: Q,
    pub(crate) stop: Q::Stop,
    pub(crate) coprimes: Coprimes<A>,
    pub(crate) alloc: A,
}
