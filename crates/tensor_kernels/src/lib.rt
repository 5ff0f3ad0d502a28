//! Contractions and convolutions of lists of wrapping 64-bit integers. The rows of a list are given
//! by places, so there are no dims and no expressions here. A `Contraction` is made ready once, and
//! then asked for ranges of its values. README.md has the picture.
//!
//! No public clause names a chunk, a tile or a width, so these may change without a change to other
//! crates. None of them changes a value: sums may be taken modulo 2^64 at each step and chunk by
//! chunk (`wrap-chunk` of proofs/ChunkSums), and seven products give the sums of eight
//! (proofs/Strassen proves it for any numbers; specs/private/Strassen defines the products).
//!
//! Two things cost a caller time. Whether all values fit 32 bits is decided for whole operands.
//! Columns that are cut between two ranges are packed for both ranges, and so are all rows of the
//! first operand if they aren't packed beforehand. So tensor_reduce cuts a contraction into ranges
//! by the widths that are public here.
#![tactic(auto)]

mod contraction;
mod panels;
mod tiling;

pub use contraction::{Contraction, TILED_ROWS};
pub use tensor_dots::{Rows, Strips, Windows, sum_with_products};
pub use tiling::strassen::PAIRED_COLUMNS;
pub use tiling::{BAND_COLUMNS, WIDE_BAND_COLUMNS};
