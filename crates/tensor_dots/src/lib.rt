//! Sums of products of rows of wrapping 64-bit integers. A row is given by places of a list, so
//! there are no dims and no expressions here. Two operands are joined once in `Dots` (rows that
//! begin anywhere), `StripDots` (rows that are slices) or `WindowDots` (one row that slides along
//! another list, a convolution), which then write any range of the result. README.md has the
//! picture.
//!
//! tensor_kernels alone depends on this crate. It re-exports some of its types, and its public
//! contracts cite specs/Products, specs/Rows, specs/Strips and specs/Windows of this crate.
#![tactic(auto)]

mod dots;
pub mod lanes;
mod rows;

pub use dots::Dots;
pub use dots::strip_dots::{StripDots, sum_with_products};
pub use dots::window_dots::WindowDots;
pub use rows::Rows;
pub use rows::part::RowsPart;
pub use rows::starts::side_by_side;
pub use rows::strips::Strips;
pub use rows::windows::Windows;
