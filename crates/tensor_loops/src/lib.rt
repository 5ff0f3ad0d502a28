//! Loops over lists of wrapping 64-bit integers: values gathered along views and in turns, combined
//! element by element, and folded. README.md has the picture. There are no dims and no expressions
//! here. tensor_ops calls these loops; how they split or order their work changes no value.
#![tactic(auto)]

mod folds;
mod gather;
mod loops;

pub use folds::{add_combined, combine_runs, combined_with};
pub use gather::along::put_along;
pub use gather::interleaved::{interleaved_list, interleaved_run, places_of_each};
pub use gather::tiles::{Neighbours, Tiled};
pub use gather::{picked, picked_along};
pub use loops::chain::{Link, are_same, combine_chain};
pub use loops::combining::{combine_along, has_long_rows};
pub use loops::putting::{Others, combined_list, put_applied, put_combined};
pub use loops::{SelectOrder, apply, combine, combine_row, select};
