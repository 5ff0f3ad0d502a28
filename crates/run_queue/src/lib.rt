//! Rows of jobs, from whose fronts workers take their own jobs and from whose backs they steal: a
//! deque for one thread, and rows that threads share.
//!
//! # Use
//!
//! Each owner has a seat, and the seat owns a row. The owner pushes and pops at the front of its
//! row. Any seat pushes and pops at the back of any row:
//!
//!     rows.push_front(&mut seat, job)          rows.pop_front(&mut seat)
//!     rows.push_back(rt, &mut seat, row, job)  rows.pop_back(rt, &mut seat, row)
//!
//! A push returns its job if the element there is not empty. At the end `close` takes all seats,
//! and returns the jobs that are left. A `Deque` is a row for one thread alone. A pool is generic
//! over the trait `Rows`. `SlotRows` implements it by the protocol of this page, and `LockedRows`
//! by one lock round deques.
//!
//! # The words of rows of slots
//!
//! All rows lie in one table. The slots of the table are the jobs of the elements.
//!
//! | Word | Value |
//! |---|---|
//! | of an element, 1,024 for each row | 0 empty, 1 busy, 2 ready |
//! | the length of a row, on a cache line of its own | how many jobs it has or is about to have |
//!
//! The front position of a row stands in its owner's seat, and so needs no lock. The back position
//! stands under the row's own lock. An element is busy while a seat works on it. It is ready if its
//! slot has a job.
//!
//! # What a push and a pop do
//!
//! Each call at an end makes one claim: it exchanges the word of its element. If the claim finds
//! another word than it wants, a push returns its job and a pop returns none. Otherwise a push
//! makes the element busy, raises the length, puts the job into the slot, and makes the element
//! ready. A pop makes the element busy, takes the job out of the slot, makes the element empty, and
//! lowers the length. So the length of a row is never less than the number of its ready elements.
//! It is more by at most one for each seat.
//!
//! README.md has the picture.
//!
//! # Why no job is lost or doubled
//!
//! A busy element is named in the view of the one seat whose claim made it busy, and in no other
//! view. A job moves by value, from the caller into the slot and out of it. Each view lists the
//! jobs that its seat has put in and taken out. Over all views, what was put is, as a bag, what was
//! taken and what is ready, between any two steps of any threads.
//!
//! waking_rows puts these rows into the table of an event count, and worker_pool is generic over
//! `Rows`. A change to the trait, to the order of the steps, or to a law here is a change there.
#![tactic(auto)]

mod deque;
mod deque_rows;
mod locked_rows;
mod room;
mod rows;
mod slot_rows;

pub use deque::{Deque, ROW_JOBS};
pub use locked_rows::{LockedRows, LockedSeat};
pub use rows::{MOST_ROWS, Rows, RowsFault};
pub use slot_rows::SlotRows;
pub use slot_rows::contents::{AnyJob, Contents};
pub use slot_rows::laws::{
    busy_elements_are_named, lengths_are_bounded, lengths_cover_ready, named_elements_are_busy,
    puts_are_takes_and_ready, ready_jobs_fit,
};
pub use slot_rows::reserve::Reserve;
pub use slot_rows::rule::{Law, RowsKey};
pub use slot_rows::seat::SlotSeat;
pub use slot_rows::view::{Claim, Look, Notes, View};
