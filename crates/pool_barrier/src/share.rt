//! The rights to a barrier's two sides: `Share` to notify, and `Waiter` to wait.
//! `specs/Shares.antt` names what contracts say of them.
ghost use Rattle.std.specs.Prelude.{◌≡◌, []};
ghost use Rattle.pool_barrier.specs.Views.{given_in, found_in, phase_in};
ghost use Rattle.pool_barrier.specs.declared.view.View.TheVariants.{Gives, Waits};

use crate::view::View;
use atomic_table::Seat;

/// The right to give a number of notices of one barrier. It may move between threads.
///
/// A share that is dropped with notices left keeps its barrier's waiter waiting forever.
#[derive(Drop)]
pub struct Share {
    pub(crate) seat: Seat<(), View>,
    pub(crate) notices: u64,
    ghost gives: { seat.me.0 ≡ Gives notices (given_in seat.me.0) (found_in seat.me.0) },
    ghost none_held: { seat.me.1 ≡ [] },
}

impl Share {
    ghost use Rattle.pool_barrier.specs.Shares.{notices_of};

    /// Returns how many notices the share has left to give.
    pub fn notices(&self) -> u64
        ensures { result ≡ notices_of self.now }
    {
        self.notices
    }
}

/// The right to wait for one barrier. It may move between threads.
#[derive(Drop)]
pub struct Waiter {
    pub(crate) seat: Seat<(), View>,
    ghost waits: { seat.me.0 ≡ Waits (phase_in seat.me.0) },
    ghost none_held: { seat.me.1 ≡ [] },
}
