//! Rows of an operand in two chunks of the products, packed and cut into quarters: each half of the
//! rows in each chunk. `factors` are made of these.

ghost use Rattle.std.specs.Prelude.{◌≡◌, ℕ, ◌*◌, ◌+◌, ◌<◌, ◌≤◌, length, IfOk};
ghost use Rattle.tensor_values.specs.Values.{value_in};
ghost use Rattle.tensor_kernels.specs.private.Quartering.{half_size, HasChunk};

use crate::panels::chunks::chunk_of;
use crate::panels::packing::{packed, padded};
use crate::tiling::strassen::half::Half;
use std::alloc::{AllocError, Global};
use tensor_dots::RowsPart;

/// A quarter of an operand: one half of its rows, in the earlier chunk or in the later one.
#[derive(Clone, Copy, Drop)]
pub(crate) enum Quarter {
    FirstEarlier,
    FirstLater,
    SecondEarlier,
    SecondLater,
}

/// The panels of both halves of the rows, in the earlier chunk and in the later one.
#[derive(Drop)]
pub(crate) struct Quarters {
    pub(crate) half: Half,
    pub(crate) earlier: Vec<i64>,
    pub(crate) later: Vec<i64>,
    ghost earlier_len: { length earlier.items ≡ 2 * half_size half },
    ghost later_len: { length later.items ≡ 2 * half_size half },
}

impl Quarters {
    ghost use Rattle.tensor_kernels.specs.private.Strassen.{cell};

    /// Packs the rows of a part in chunk `c` and in the next one, filled up to whole halves by
    /// copies of the last row. Takes a cell for each value, and a number for each row.
    pub(crate) fn of(
        alloc: Global,
        half: Half,
        part: &RowsPart<'_>,
        c: usize,
    ) -> Result<Quarters, AllocError>
        requires some { 0 < length part.now.starts.now }
        requires rows { length part.now.starts.now ≤ 2 * (half.panels * half.height) }
        requires whole { (c + 2) * 128 ≤ length part.now.offsets.now }
        ensures half { IfOk result (λ q. q.half ≡ half) }
        ensures earlier { IfOk result (λ q. HasChunk half.height q.earlier.items part.now c) }
        ensures later { IfOk result (λ q. HasChunk half.height q.later.items part.now (c + 1)) }
    {
        let earlier = chunk_cells(alloc, half, part, c)?;
        let later = chunk_cells(alloc, half, part, c + 1)?;
        Ok(Quarters {
            half,
            earlier,
            later,
        })
    }

    /// Returns the cells of one quarter.
    pub(crate) fn quarter(&self, which: Quarter) -> &[i64]
        ensures len { length result.now ≡ half_size self.now.half }
        ensures each { (p : ℕ) → p < half_size self.now.half
            → value_in result.now p ≡ cell self.now which p }
    {
        let size = self.half.size();
        match which {
            Quarter::FirstEarlier => &self.earlier[..size],
            Quarter::FirstLater => &self.later[..size],
            Quarter::SecondEarlier => &self.earlier[size..],
            Quarter::SecondLater => &self.later[size..],
        }
    }
}

/// Returns the rows of a part in chunk `c`, in panels, filled up to whole halves by copies of the
/// last row.
fn chunk_cells(
    alloc: Global,
    half: Half,
    part: &RowsPart<'_>,
    c: usize,
) -> Result<Vec<i64>, AllocError>
    requires some { 0 < length part.now.starts.now }
    requires rows { length part.now.starts.now ≤ 2 * (half.panels * half.height) }
    requires whole { (c + 1) * 128 ≤ length part.now.offsets.now }
    ensures len { IfOk result (λ cells. length cells.items ≡ 2 * half_size half) }
    ensures each { IfOk result (λ cells. HasChunk half.height cells.items part.now c) }
{
    let starts = padded(alloc, part.starts, 2 * (half.panels * half.height))?;
    let chunk = RowsPart {
        values: part.values,
        starts: &starts,
        offsets: chunk_of(part.offsets, c),
    };
    let cells = packed(alloc, &chunk, half.height)?;
    Ok(cells)
}
