//! `Reserve`: room for a list, kept where threads share it. `SlotRows` and waking_rows keep the
//! room for the jobs that are left in one.
ghost use Rattle.std.specs.Prelude.{◌≡◌, ◌≤◌, ℕ, [], vec_capacity, IfOk};

use crate::room::room_for;
use atomic_table::{Table, TableRule};
use std::alloc::{AllocError, Allocator};
use std::marker::{Model, PhantomData};

/// The rule of a reserve's table: its one slot has an empty list with room for the number of
/// elements that is the key.
pub struct HasRoom<J, A: Allocator> {
    of: PhantomData<(J, A)>,
}

impl<J, A: Allocator> TableRule<Vec<J, A>, (), usize> for HasRoom<J, A> {
    ghost use Rattle.run_queue.specs.Reserves.{KeepsRoom};

    ghost holds = { λ room s. KeepsRoom room s };

    ghost first = { λ _. tt };
}

/// Room for a list, which no thread uses before the end.
///
/// Threads may share a list, even an empty one, only if they may share its elements. They may share
/// a `Reserve` whenever its elements may move between threads.
#[derive(Drop)]
pub struct Reserve<J, A: Allocator> {
    table: Table<Vec<J, A>, (), usize, HasRoom<J, A>, A>,
}

// Clauses see the number of elements for which there is room.
impl<J, A: Allocator> Model for Reserve<J, A> {
    ghost Value = { ℕ };

    ghost view = { λ r. r.table.shared.key };

    ghost invariant = { λ r. r.table.shared.table_id.slots ≡ 1 };
}

impl<J: Drop, A: Allocator> Reserve<J, A> {
    /// Returns room for `room` elements, or an error if an allocation fails.
    pub fn new(alloc: &A, room: usize) -> Result<Self, AllocError>
    where
        A: Clone,
        ensures { IfOk result (λ reserve. reserve ≡ room) }
    {
        let list = room_for(alloc, room)?;
        let mut lists = room_for(alloc, 1)?;
        lists.push_reserved(list);
        match Table::new(alloc.clone()?, &[], lists, &room) {
            Ok((table, _)) => Ok(Reserve { table }),
            Err(_) => Err(AllocError),
        }
    }

    /// Returns the list, which is empty.
    pub fn into_list(self) -> Vec<J, A>
        ensures none { result.items ≡ [] }
        ensures room { self ≤ vec_capacity result }
    {
        let Reserve { table } = self;
        let mut closed = table.close();
        let list = closed.take(0);
        closed.free();
        list
    }
}
