//! Puts the pieces of a range in order. A change here also touches `specs/Table` and `proofs/Rows`.
//!
//! Pieces come in any order and from any worker. The account of the pool's jobs says that they
//! cover the range once. So each piece is a leaf that has not come before, and no leaf is missing
//! in the end.
ghost use Rattle.std.specs.Prelude.{◌≡◌, ◌≤◌, ◌<◌, ◌+◌, ◌++◌, [], ◌∷◌};
ghost use Rattle.std.specs.Prelude.{All, Contains, IfOk, replicate, vec_len, vec_capacity};
ghost use Rattle.parallel_for.specs.Leaves.{blocks_of};
ghost use Rattle.parallel_for.specs.Items.{AreItems};
ghost use Rattle.parallel_for.specs.Pieces.{IsRight, ranges_of, all_ranges, CoverOnce};
ghost use Rattle.parallel_for.specs.Table.{rows_of, IsTable, missing, AreAmong, IsTaken};

use crate::halving::blocks;
use crate::kernel::Kernel;
use crate::piece::Piece;
use std::alloc::{AllocError, Allocator};

/// The items of each block. The list of a block whose items are missing is empty.
type Table<I, A> = Vec<Vec<I, A>, A>;

/// Returns the items at the places below `n`, in order, from lists of pieces that cover these
/// places once. The kernel is not run here: it only says which items are right.
pub(crate) fn collect<K: Kernel, A: Allocator + Clone>(
    alloc: &A,
    kernel: &K,
    n: u64,
    block: u64,
    lists: Vec<Vec<Piece<K::Item, A>, A>, A>,
) -> Result<Vec<K::Item, A>, AllocError>
    requires some { 0 < block }
    requires right { All (λ pieces. All (IsRight (K.item_at kernel.now)) pieces.items) lists.items }
    requires covered { CoverOnce n block (all_ranges lists.items) }
    ensures items { IfOk result (λ items. AreItems (K.item_at kernel.now) 0 n items.items) }
{
    let mut table = blank(alloc, n, block)?;
    for pieces in lists {
        put_all(kernel, n, block, &mut table, pieces);
    }
    join(alloc, kernel, n, block, table)
}

/// Returns a table in which the items of all blocks are missing.
fn blank<I: Drop, A: Allocator + Clone>(
    alloc: &A,
    n: u64,
    block: u64,
) -> Result<Table<I, A>, AllocError>
    requires { 0 < block }
    ensures rows { IfOk result (λ table.
        rows_of table.items ≡ replicate (blocks_of n block) []) }
    ensures long { IfOk result (λ table. vec_len table ≡ blocks_of n block) }
{
    let count = blocks(n, block) as usize;
    let mut table = with_room(alloc, count)?;
    for _ in 0..count {
        table.push_reserved(Vec::new(alloc.clone()?));
    }
    Ok(table)
}

/// Returns an empty list with room for `count` items.
fn with_room<T: Drop, A: Allocator + Clone>(
    alloc: &A,
    count: usize,
) -> Result<Vec<T, A>, AllocError>
    ensures items { IfOk result (λ list. list.items ≡ []) }
    ensures len { IfOk result (λ list. vec_len list ≡ 0) }
    ensures room { IfOk result (λ list. count ≤ vec_capacity list) }
{
    Vec::with_capacity(alloc.clone()?, count)
}

/// Puts each piece into the row of its block.
fn put_all<K: Kernel, A: Allocator>(
    kernel: &K,
    n: u64,
    block: u64,
    table: &mut Table<K::Item, A>,
    pieces: Vec<Piece<K::Item, A>, A>,
)
    requires some { 0 < block }
    requires right { All (IsRight (K.item_at kernel.now)) pieces.items }
    requires missing { AreAmong (ranges_of pieces.items)
        (missing n block 0 (rows_of table.old.items)) }
    requires table { IsTable n block (K.item_at kernel.now) 0 (rows_of table.old.items) }
    requires long { vec_len table.old ≡ blocks_of n block }
    ensures table { IsTable n block (K.item_at kernel.now) 0 (rows_of table.new.items) }
    ensures long { vec_len table.new ≡ blocks_of n block }
    ensures taken { IsTaken (missing n block 0 (rows_of table.old.items))
        (ranges_of pieces.items) (missing n block 0 (rows_of table.new.items)) }
{
    for piece in pieces {
        put(kernel, n, block, table, piece);
    }
}

/// Puts a piece into the row of its block, which was missing.
fn put<K: Kernel, A: Allocator>(
    kernel: &K,
    n: u64,
    block: u64,
    table: &mut Table<K::Item, A>,
    piece: Piece<K::Item, A>,
)
    requires some { 0 < block }
    requires right { IsRight (K.item_at kernel.now) piece }
    requires missing { Contains (missing n block 0 (rows_of table.old.items))
        (piece.first, piece.last) }
    requires table { IsTable n block (K.item_at kernel.now) 0 (rows_of table.old.items) }
    requires long { vec_len table.old ≡ blocks_of n block }
    ensures table { IsTable n block (K.item_at kernel.now) 0 (rows_of table.new.items) }
    ensures long { vec_len table.new ≡ blocks_of n block }
    ensures taken { IsTaken (missing n block 0 (rows_of table.old.items))
        ((piece.first, piece.last) ∷ []) (missing n block 0 (rows_of table.new.items)) }
{
    let Piece { first, items, .. } = piece;
    table[(first / block) as usize] = items;
}

/// Returns the items of all rows, one row after the other. No row is missing.
fn join<K: Kernel, A: Allocator + Clone>(
    alloc: &A,
    kernel: &K,
    n: u64,
    block: u64,
    table: Table<K::Item, A>,
) -> Result<Vec<K::Item, A>, AllocError>
    requires some { 0 < block }
    requires table { IsTable n block (K.item_at kernel.now) 0 (rows_of table.items) }
    requires long { vec_len table ≡ blocks_of n block }
    requires whole { missing n block 0 (rows_of table.items) ≡ [] }
    ensures items { IfOk result (λ items. AreItems (K.item_at kernel.now) 0 n items.items) }
{
    let mut joined = with_room(alloc, n as usize)?;
    for items in table {
        append(&mut joined, items);
    }
    Ok(joined)
}

/// Moves all items at once to the end of a list that has room for them.
fn append<I: Drop, A: Allocator>(joined: &mut Vec<I, A>, mut items: Vec<I, A>)
    requires { vec_len joined.old + vec_len items ≤ vec_capacity joined.old }
    ensures items { joined.new.items ≡ joined.old.items ++ items.items }
    ensures len { vec_len joined.new ≡ vec_len joined.old + vec_len items }
    ensures capacity { vec_capacity joined.old ≤ vec_capacity joined.new }
{
    let Ok(()) = joined.append(&mut items) else {
        unreachable!()
    };
}
