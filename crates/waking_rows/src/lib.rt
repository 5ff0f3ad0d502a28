//! Rows of jobs, and the point at which threads wait for these jobs, over one count. A put notifies
//! a waiter, and no thread falls asleep while a row has a job.
//!
//! # Use
//!
//! `on_one_count` opens both. Each thread has a seat of the rows, with which it puts and takes
//! jobs, and a seat of the point, with which it waits:
//!
//!     rows.push_front(rt, &mut seat, job)       rows.pop_front(&mut seat)
//!     rows.push_back(rt, &mut seat, row, job)   rows.pop_back(rt, &mut seat, row)
//!     point.rest(rt, &mut waiter)               point.stop(rt, &mut waiter)
//!
//! A thread that finds no job rests. A rest sleeps until the thread is woken, or returns a row with
//! jobs, or returns `Ended`: the count was stopped, and each row was then found empty. In the end
//! `rows.close` returns the jobs that are left.
//!
//! # The two tables
//!
//! | Table | Has |
//! |---|---|
//! | of the count | the state word, waiters' words, the rows' lengths, the stop word, the bank |
//! | of the slots | the phase of each element; in its slot a job beside the ticket that counts it |
//!
//! Both seats of a thread are seats of the count, too. The seat of the rows publishes, takes and
//! notifies. The seat of the point waits, and stops the count.
//!
//! # What the calls do
//!
//! A put without a credit takes all credits out of the bank, and puts the surplus back. It turns a
//! credit into a ticket, which raises the row's length, lays the job and the ticket into the slot,
//! and notifies one waiter. If the slot is taken, it gives the ticket back, which lowers the
//! length, and still notifies. A take gets the job and the ticket out of the slot, and gives the
//! ticket back for a credit. If the seat then has more than 1,024 credits, it puts all but 512 into
//! the bank.
//!
//! A rest is a prewait and then a look at the flag and at each row, up to a row with jobs. It
//! commits if it has passed all of them, and otherwise cancels. If it finds the count stopped, it
//! looks at the rows all the same, because jobs may be left in them. README.md has the picture.
//!
//! # Why no job is slept on
//!
//! By the rule of the slots, each job in a row has a ticket of the count and of that row beside it.
//! So the row's length is above 0. By the rule of the count, each such row has support: some seat
//! is to notify, runs, is about to look at the row, or is being woken. No seat keeps a publish to
//! itself: by its type it has nothing to notify between two calls.
//!
//! worker_pool opens its pools over this pair. A change to the order of a put, or to what a rest
//! passes before it sleeps, is a change to the laws here and to event_count's.
#![tactic(auto)]

mod laws;
mod opening;
mod row_point;
mod ticketed;
mod waking_rows;

pub use laws::{jobs_are_counted, jobs_are_not_slept_on};
pub use opening::{OnOneCount, on_one_count};
pub use row_point::{Rested, RowPoint, RowWaiter};
pub use ticketed::{OfCount, Ticketed};
pub use waking_rows::{WakingRows, WakingSeat};
