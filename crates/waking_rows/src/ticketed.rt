//! `Ticketed`: a job in a row, beside the ticket that counts it. The law `jobs_are_counted` is the
//! fact that `OfCount` states.
use event_count::{RowCount, Ticket};
use run_queue::Contents;
use std::alloc::Allocator;
use std::marker::PhantomData;
use std::snapshot::Snapshot;

/// A job, and the ticket that counts it in its row.
#[derive(Drop)]
pub struct Ticketed<J> {
    pub(crate) job: J,
    pub(crate) ticket: Ticket,
}

/// What is known about ticketed jobs in rows: each ticket is the count's, and of the row in which
/// the job lies. These rows have no length words, because the count has their lengths.
pub struct OfCount<A> {
    of: PhantomData<A>,
}

impl<J, A: Allocator> Contents<Ticketed<J>> for OfCount<A> {
    ghost use Rattle.std.specs.Prelude.{false};
    ghost use Rattle.event_count.specs.Rows.Seats.{row_count_id};
    ghost use Rattle.waking_rows.specs.Tickets.{IsCounted};

    type Key = Snapshot<RowCount<A>>;

    ghost fits = { λ key row it. IsCounted (row_count_id key.value) row it };

    ghost counted = { false };

    #[inline(always)]
    fn have_lengths() -> bool {
        false
    }
}
