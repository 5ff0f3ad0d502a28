//! `Ticket`, which lies with a job, and `Credit`, the right to publish a job. The rule counts both
//! (`specs/Tickets.antt`).
ghost use Rattle.std.specs.Prelude.{◌≡◌, ◌≤◌, [], ◌∷◌};
ghost use Rattle.event_count.specs.Places.{words_for};
ghost use Rattle.event_count.specs.Tickets.{ticket, credit};

use crate::view::View;
use atomic_table::Badge;

/// A token for one of the jobs that a row's length counts. It lies with its job, and may move
/// between threads.
///
/// The length of a row never becomes 0 again once one of its tickets was dropped.
#[derive(Drop)]
pub struct Ticket {
    pub(crate) badge: Badge<View>,
    pub(crate) row: u16,
    ghost one: { badge.views ≡ ticket row ∷ [] },
    ghost fits: { words_for row ≤ badge.table_id.words },
}

impl Ticket {
    ghost use Rattle.event_count.specs.Rows.Seats.{row_of};

    /// Returns the row of the ticket's job.
    pub fn row(&self) -> u16
        ensures { result ≡ row_of self.now }
    {
        self.row
    }
}

/// The right to publish one job, on its way from one seat to another. It has no bytes.
///
/// All seats together may publish one job fewer once a credit was dropped.
#[derive(Drop)]
pub struct Credit {
    pub(crate) badge: Badge<View>,
    ghost one: { badge.views ≡ credit ∷ [] },
}
