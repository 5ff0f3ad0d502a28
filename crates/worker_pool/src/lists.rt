//! The lists of outs. `working/run.rt` needs `reserve` before `keep`: room for an out is taken
//! before its job runs.
ghost use Rattle.std.specs.Prelude.{◌≡◌, ◌+◌, ◌^◌, ◌<◌, ◌≤◌, List, [], ◌∷◌, ◌++◌, length, ℕ};
ghost use Rattle.std.specs.Prelude.{vec_capacity, OnOk};

use std::alloc::{AllocError, Allocator};

/// A kind of list for outs.
///
/// A body can be lent a caller only if the caller's type names no list at an allocator. So the type
/// of a caller names a kind of list instead, which is `VecLists`.
pub trait Lists<O, A: Allocator> {
    /// The type of a list.
    type List: Drop;

    ghost items_of: { Self.List → List O };

    // How many items the list has memory for.
    ghost room_of: { Self.List → ℕ };

    /// Returns an empty list, and allocates nothing.
    fn new(alloc: A) -> Self::List
        ensures { items_of result ≡ [] };

    /// Allocates memory for `count` more items.
    fn reserve(list: &mut Self::List, count: usize) -> Result<(), AllocError>
        ensures items { items_of list.new ≡ items_of list.old }
        ensures room { OnOk result (length (items_of list.new) + count ≤ room_of list.new) }
        ensures kept { room_of list.old ≤ room_of list.new }
        ensures fits { room_of list.new < 2 ^ 63 };

    /// Adds an item. The list has memory for it.
    fn keep(list: &mut Self::List, out: O)
        requires { length (items_of list.old) < room_of list.old }
        ensures items { items_of list.new ≡ items_of list.old ++ out ∷ [] }
        ensures room { room_of list.new ≡ room_of list.old };

    /// Turns the list into a vector of its items.
    fn into_vec(list: Self::List) -> Vec<O, A>
        ensures { result.items ≡ items_of list };
}

/// Lists that are vectors.
#[derive(Clone, Copy, Debug, PartialEq, Eq)]
pub struct VecLists;

impl<O: Drop, A: Allocator> Lists<O, A> for VecLists {
    type List = Vec<O, A>;

    ghost items_of = { λ list. list.items };

    ghost room_of = { λ list. vec_capacity list };

    fn new(alloc: A) -> Vec<O, A> {
        Vec::new(alloc)
    }

    fn reserve(list: &mut Vec<O, A>, count: usize) -> Result<(), AllocError> {
        list.reserve(count)
    }

    fn keep(list: &mut Vec<O, A>, out: O) {
        list.push_reserved(out);
    }

    fn into_vec(list: Vec<O, A>) -> Vec<O, A> {
        list
    }
}
