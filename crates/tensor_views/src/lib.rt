//! Strided views: a start, and for each axis a size, a step and a direction, up or down. A view
//! says which places of an operand are read, in the order of the result's places. README.md has an
//! example. tensor_terms defines what movements read, and this crate is proved against that;
//! tensor_loops and tensor_ops read through these views.
#![tactic(auto)]

mod axis;
mod composing;
mod listed_places;
mod mapping;
mod movements;
mod offset_tables;
mod places;
mod row;
mod run_places;
mod view;

pub use axis::{Axis, steps_to};
pub use listed_places::looked_up;
pub use mapping::{are_apart, map_through};
pub use offset_tables::{offsets, stepped_places, tables};
pub use places::Places;
pub use row::Row;
pub use run_places::rows_of;
pub use view::{Reading, View, ViewRef};
