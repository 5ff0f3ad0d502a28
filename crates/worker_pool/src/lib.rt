//! A pool of workers that run jobs, as in Eigen's `NonBlockingThreadPool.h`.
//!
//! README.md has a picture of a worker's turn, and says what is proved. `parallel_for` and `uses`
//! open pools. `waking_rows` and `event_word` prove that no job is forgotten, from the order of the
//! steps that `working/` takes. Add a new public call to CALLING.md.
//!
//! # Use
//!
//! A pool is opened for one call. The call's body schedules jobs, and the pool is closed once all
//! jobs have ended:
//!
//!     with_pool::<W, R, L, ..>(rt, alloc, &setup, &ctx, &gate, |caller| caller.schedule(rt, job))
//!
//! A job takes one step at a time. A step forks a kid, which is a job of its own, or it is the last
//! step and leaves an out (the job's result). `W` is the point at which workers wait, `R` is their
//! rows, and `L` is the kind of the lists of outs. `with_counted_root` schedules one job, over rows
//! that wake workers.
//!
//! A `StandingPool` stays open between calls. Its threads own it together with its owner, who
//! schedules jobs in it and closes it (`standing/`).
//!
//! # The queue
//!
//! A pool reaches its rows and its wait point by one trait, `Queue` (`queues/`). `CountedQueue` has
//! both over one event count. `JobQueue` has any rows and any point, with a stop word of its own.
//!
//! # A worker's turn
//!
//! The gate is called before each turn. If the pool was cancelled, the worker ends. Otherwise it
//! looks for a job at the front of its own row, then by random walks at the backs of its
//! partition's rows and of all rows. If it finds none, it rests: it calls prewait on the point, and
//! loads the stop word and the lengths of the rows. If a row has a job, it cancels the wait and
//! takes the job there, or yields if the job is gone. If the pool is closing, it cancels the wait
//! and ends. Otherwise it sleeps until it is woken.
//!
//! To run a job, the worker first allocates memory for its out. If that fails, the job is abandoned
//! and counted as refused. Each kid goes to the front of the worker's own row, and one waiter is
//! woken. If the row is full, the worker runs the kid at once.
//!
//! The thread that opened the pool puts each job at the back of a row that a random word picks, and
//! wakes a waiter. If the row is full, or no worker was started, it runs the job itself.
//!
//! # How a pool ends
//!
//! When the body returns, the opener stores the stop word and wakes all workers. Each worker ends
//! at its last turn and is joined. If a worker's thread could not be started, the opener takes the
//! worker's turns then. Jobs that are still in the rows are run by the opener, or handed back if the
//! pool was cancelled. In a standing pool, a worker without a thread takes no turn.
//!
//! # Why each job ends once
//!
//! No code that runs jobs may drop them, and a job is not `Clone`. It moves from the caller or a
//! fork into a row and out of it, and ends as a node: done, refused or left. Each worker, the
//! caller and the closer keep an account of the jobs that came to them, and accounts can be
//! appended. If the rows keep accounts too, all of these together are the account of the scheduled
//! jobs. `noted.rt` keeps the list of scheduled jobs, which contracts alone see.
//!
//! # Why no job is forgotten by sleepers
//!
//! A thread that puts a job in raises its row's length before it wakes a waiter. A worker commits
//! to a wait only if it found the stop word 0 and all lengths 0 since its prewait. Over a
//! `CountedQueue`, a law of `waking_rows` over its two tables says that some thread is to wake a
//! worker for each job in a row. For other rows and points it is a law of `event_word`. That the
//! steps here are the steps of that model is argued from the code.
#![tactic(auto)]

mod boxed;
mod caller;
mod closed;
mod closing;
mod entry;
mod gate;
mod job;
mod lists;
mod noted;
mod opening;
mod queues;
mod setup;
mod standing;
mod working;

pub use boxed::{BoxedJob, BoxedTask, TaskOut};
pub use caller::Caller;
pub use closed::Closed;
pub use entry::{with_counted_root, with_pool, with_pool_limited};
pub use gate::{Gate, NoGate};
pub use job::{Job, Progress};
pub use lists::{Lists, VecLists};
pub use opening::root::Scheduled;
pub use queues::counted_queue::{CountedQueue, CountedSeat};
pub use queues::job_queue::JobQueue;
pub use queues::queue::{NewQueue, Queue};
pub use setup::{MOST_WORKERS, PoolFault, Setup};
pub use standing::{CountedPool, StandingPool, Stands, open_counted};
