//! The seats that actors have popped and not unparked, in one list for all actors. A seat stands
//! there at most once, so room for one entry a worker is enough. `specs/Debts.antt` has the list of
//! each actor.

ghost use Rattle.std.specs.Prelude.{◌≡◌, ◌+◌, ◌≤◌, ◌==◌, ◌++◌, length, map, position, slice_get};
ghost use Rattle.std.specs.Prelude.{vec_len, vec_capacity};
ghost use Rattle.event_word.specs.Debts.{debt, seats_owed};

use std::alloc::Allocator;

/// A seat that an actor has to unpark.
#[derive(Clone, Copy)]
pub(crate) struct Debt {
    pub(crate) actor: u32,
    pub(crate) seat: u16,
}

/// Returns the place of the first seat that the actor owes.
pub(crate) fn first_owed(debts: &[Debt], actor: u32) -> Option<usize>
    ensures { result ≡ position (λ d. d.actor == actor) debts.now }
{
    debts.iter().position(|debt| debt.actor == actor)
}

/// Returns the seat at `place` among the seats that the actor owes.
pub(crate) fn nth_owed(debts: &[Debt], actor: u32, place: usize) -> Option<u16>
    ensures { result ≡ slice_get (seats_owed actor debts.now) place }
{
    let mut before = place;
    for debt in debts {
        if debt.actor == actor {
            if before == 0 {
                return Some(debt.seat);
            }
            before -= 1;
        }
    }
    None
}

/// Adds the seats to those that the actor owes. It unparks them in the order of the list.
pub(crate) fn owe_all<A: Allocator>(debts: &mut Vec<Debt, A>, actor: u32, seats: &[u16])
    requires { vec_len debts.old + length seats.now ≤ vec_capacity debts.old }
    ensures items { debts.new.items ≡ debts.old.items ++ map (debt actor) seats.now }
    ensures capacity { vec_capacity debts.new ≡ vec_capacity debts.old }
{
    for seat in seats {
        debts.push_reserved(Debt { actor, seat: *seat });
    }
}
