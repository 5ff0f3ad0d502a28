//! The laws that join the table of the rows and the table of the count. Each holds between any two
//! steps on either table. Its function does nothing, and its contract is the law. `specs/Laws.antt`
//! states them.
ghost use Rattle.std.specs.Prelude.{Option};
ghost use Rattle.event_count.specs.Rows.Seats.{row_count_id};
ghost use Rattle.waking_rows.specs.Laws.{JobsAreCounted, JobsAreNotSleptOn};

use crate::ticketed::{OfCount, Ticketed};
use atomic_table::TableRule;
use event_count::RowCount;
use run_queue::{Law, RowsKey, View};
use std::alloc::Allocator;
use std::snapshot::Snapshot;

// The slot of an element.
type Slot<J> = Option<Ticketed<J>>;

// What a seat at the slots knows.
type Known<J> = View<Ticketed<J>>;

// The key of the slots' table, which names the count.
type Key<A> = RowsKey<Snapshot<RowCount<A>>>;

/// Each job in a row has a ticket of the count and of that row beside it.
pub fn jobs_are_counted<J, A: Allocator>()
    ensures { JobsAreCounted (λ key. row_count_id key.of.value)
        ⟦<Law<Ticketed<J>, OfCount<A>> as TableRule<Slot<J>, Known<J>, Key<A>>>⟧.holds }
{
    run_queue::ready_jobs_fit::<Ticketed<J>, OfCount<A>>();
}

/// While nobody has stopped the count, each job in a row has support by a present seat: it is to
/// notify, runs, is about to look at the job's row, or is being woken. So no job is slept on. The
/// states of the two tables have to be of one moment.
pub fn jobs_are_not_slept_on<J, A: Allocator>()
    ensures { JobsAreNotSleptOn (λ key. row_count_id key.of.value)
        ⟦<Law<Ticketed<J>, OfCount<A>> as TableRule<Slot<J>, Known<J>, Key<A>>>⟧.holds }
{
    run_queue::ready_jobs_fit::<Ticketed<J>, OfCount<A>>();
    event_count::lengths_are_tickets();
    event_count::rows_stay_awake();
}
