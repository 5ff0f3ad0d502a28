//! An event count: threads wait for a condition that others make true, without a lock. It is
//! Eigen's `EventCount.h` over the words of one table.
//!
//! # Use
//!
//! A waiter says that it is about to wait, checks its condition, and then waits or gives up:
//!
//!     count.prewait(&mut seat);
//!     if condition_is_true() {
//!         count.cancel(rt, &mut seat);
//!     } else {
//!         count.commit(rt, &mut seat);
//!     }
//!
//! `commit` takes a signal if there is one, and otherwise sleeps until the waiter is unparked. Once
//! it returns, the waiter begins again, since another thread may have made the condition false
//! meanwhile. A notifier makes the condition true, and then notifies one waiter or all:
//!
//!     make_condition_true();
//!     count.notify(rt, &mut seat);
//!
//! All waiters of a count wait for one condition. A signal is not addressed: another pre-waiter may
//! take it, even one that came after the notification. Then that pre-waiter checks the condition.
//! Threads that wait for different conditions need a count each.
//!
//! `LockedCount` does the work of an `EventCount` behind a lock, over a plain `World`. A pool is
//! generic over both, by the trait `WaitPoint`.
//!
//! `EventCount` and `RowCount` are the two kinds of one `Count`. The condition of a `RowCount` lies
//! in its own table: the lengths of rows of jobs, and a stop word. A waiter passes all of them, or
//! gives up waiting:
//!
//!     count.prewait(&mut seat);
//!     match count.pass_all(&mut seat) {
//!         PassAll::Passed => { count.commit(rt, &mut seat); }
//!         PassAll::Stopped | PassAll::Jobs(_) => count.cancel(rt, &mut seat),
//!     }
//!
//! To add a job, publish it, lay it down with its ticket, and notify. After a job was taken, give
//! its ticket back. So no row with jobs is forgotten, whatever other threads do in between:
//!
//!     let ticket = count.publish(&mut seat, row)?;
//!     lay_down(job, ticket);
//!     count.notify(rt, &mut seat);
//!
//! # Words and tokens
//!
//! | Word | Bits | Says |
//! |---|---|---|
//! | state word | 0 to 13 | the top of the stack of parked waiters, or 16,383 |
//! | | 14 to 27 | how many pre-waiters there are |
//! | | 28 to 41 | how many of them have a signal |
//! | | 42 to 63 | the epoch of the top's push, or 0 |
//! | next word of a waiter | all | the top and the epoch that were there when it was pushed |
//! | parker word of a waiter | all | 1 if it has a token, else 0 |
//! | length word of a row | all | how many jobs the row has, by their tickets |
//! | stop word | all | 0 until somebody stops the count |
//! | bank | all | how many credits are in the bank, for any seat to withdraw |
//!
//! | Who waits | What it is given | By whom | Who takes it |
//! |---|---|---|---|
//! | a pre-waiter | a signal | a notification, if a pre-waiter has none | a commit |
//! | | | | a cancel, if all have one |
//! | a seat on the stack | a token | the notifier that popped it or took the stack | the seat |
//!
//! # Why no wake-up is lost
//!
//! Every step on a word is sequentially consistent. Say that a waiter, after its prewait, found the
//! condition false, and that the condition became true only afterwards. The notifier looks at the
//! state word after that. So in its word the waiter is a pre-waiter, or is on the stack, or was
//! notified.
//!
//! - If that word has fewer signals than pre-waiters, the notification adds one. A commit takes a
//!   signal that it finds, and pushes only by an exchange that found none. So some pre-waiter takes
//!   the signal, and checks the condition again.
//! - If each pre-waiter has a signal, none of them will sleep. Then the notification pops the top
//!   of the stack and gives that seat its token.
//! - If the stack is empty, too, there is nobody to notify.
//!
//! If another step comes between a look and its exchange, the exchange finds another word, and the
//! look is made again. A word can't come back unnoticed: it has the epoch of the top's push, and
//! each push of a seat has an epoch of its own. A seat that has used all its epochs never parks
//! again.
//!
//! The waits and wakes of worker_pool and waking_rows rest on this table. A change of a word's
//! place, of a play or of a call is a change of the rule (`specs/Shown.antt`) and of its laws.
#![tactic(auto)]

mod answers;
mod count;
mod exchanges;
mod fault;
mod gathering;
mod kind;
mod laws;
mod loads;
mod locked_count;
mod opening;
mod plays;
mod row_count;
mod rows;
mod rule;
mod seat;
mod stepped_world;
mod tokens;
mod tries;
mod unparks;
mod view;
mod wait_point;
mod waits;
mod woken;

pub use answers::{Committed, PassAll, TryCancel, TryCommit, TryNotify, TryNotifyAll};
pub use count::{Count, EventCount, RowCount};
pub use event_word::{Event, Phase};
pub use fault::{CountFault, RowFault};
pub use kind::{Alone, Kind, Rowed};
pub use laws::{
    counts_follow, lengths_are_tickets, pre_seats_wait, pushes_found_no_signal,
    row_steps_add_their_events, rows_stay_awake, seats_stand_once, signals_are_answered,
    steps_add_their_events, stop_wakes_all, table_shows_a_lawful_world, taken_stacks_are_owed,
};
pub use locked_count::{LockedCount, LockedSeat};
pub use rule::{EPOCHS, Law, MOST_CREDITS, MOST_WAITERS, RowSizes, Sizes};
pub use seat::Seat;
pub use tokens::{Credit, Ticket};
pub use view::{BankBook, Card, Exchange, Finding, View};
pub use wait_point::WaitPoint;
