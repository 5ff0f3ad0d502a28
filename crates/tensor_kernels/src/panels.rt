//! Rows of an operand packed in panels: a panel has the first values of its rows, then their second
//! values, and so on. The tiles read these; specs/Panels defines where each value lies.

pub(crate) mod chunks;
pub(crate) mod height;
pub(crate) mod packing;
pub(crate) mod pair_sums;

ghost use Rattle.std.specs.Prelude.{◌<◌, ◌≤◌, length, IfOk, IsTrue};
ghost use Rattle.std.specs.Int.{div_ceil};
ghost use Rattle.tensor_dots.specs.Lanes.{AreSmall};

use crate::panels::packing::packed;
use crate::panels::pair_sums::pair_sums;
use std::alloc::{AllocError, Global};
use tensor_dots::RowsPart;

/// Rows in panels of one height. `sums` has for each row the sum of the products of its own pairs,
/// which `tiling::pairs` takes off. It is empty if all numbers fit 32 bits.
#[derive(Drop)]
pub(crate) struct Panels {
    pub(crate) cells: Vec<i64>,
    pub(crate) sums: Vec<i64>,
}

impl Panels {
    ghost use Rattle.tensor_kernels.specs.private.Cells.{HoldsRows, AreReady};

    /// Packs some rows of an operand in panels of `height` rows. Takes a cell for each value of
    /// whole panels, and if numbers don't fit 32 bits (`small` is false) a number for each row.
    pub(crate) fn of(
        alloc: Global,
        small: bool,
        part: &RowsPart<'_>,
        height: usize,
    ) -> Result<Panels, AllocError>
        requires some { 0 < height }
        requires low { height ≤ 16 }
        requires small { IsTrue small → AreSmall part.now.values.now }
        ensures rows { IfOk result (λ panels. HoldsRows height panels.cells.items
            part.now.values.now part.now.starts.now part.now.offsets.now) }
        ensures ready { IfOk result (AreReady small height
            (div_ceil (length part.now.starts.now) height) (length part.now.offsets.now)) }
    {
        let cells = packed(alloc, part, height)?;
        let sums = if small {
            Vec::new(alloc)
        } else {
            let panels = part.starts.len().div_ceil(height);
            pair_sums(alloc, &cells, panels, height, part.offsets.len())?
        };
        Ok(Panels { cells, sums })
    }
}
