//! Rows of a list: each has the values at its start, moved by offsets that all rows share. The
//! operands of `Dots` and of the tiles of tensor_kernels; their values are defined in specs/Rows.

pub(crate) mod part;
pub(crate) mod starts;
pub(crate) mod strips;
pub(crate) mod windows;

ghost use Rattle.std.specs.Prelude.{◌≡◌, ◌≤◌, ◌+◌, ℕ, length, slice_index};
ghost use Rattle.std.specs.Cow.{cow_slice_items};
ghost use Rattle.tensor_shape.specs.Legal.{most_elements};
ghost use Rattle.tensor_dots.specs.Inside.{AreInside};
ghost use Rattle.tensor_values.specs.Values.{value_in};

use std::alloc::Global;
use std::borrow::CowSlice;

/// A list as rows. Value `q` of a row lies at the row's start, moved by offset `q`.
#[derive(Drop)]
pub struct Rows<'a> {
    pub values: CowSlice<'a, i64, Global>,
    pub starts: Vec<usize>,
    pub offsets: Vec<usize>,
    ghost inside: { AreInside (cow_slice_items values) starts.items offsets.items },
    ghost few: { length starts.items ≤ most_elements },
    ghost short: { length offsets.items ≤ most_elements },
}

impl<'a> Rows<'a> {
    ghost use Rattle.tensor_dots.specs.Rows.{row_count, row_length, row_value};

    /// Returns a list as rows with the given starts and offsets.
    pub fn new(
        values: CowSlice<'a, i64, Global>,
        starts: Vec<usize>,
        offsets: Vec<usize>,
    ) -> Rows<'a>
        requires inside { AreInside (cow_slice_items values) starts.items offsets.items }
        requires few { length starts.items ≤ most_elements }
        requires short { length offsets.items ≤ most_elements }
        ensures count { row_count result ≡ length starts.items }
        ensures len { row_length result ≡ length offsets.items }
        ensures each { (x q : ℕ) → row_value result x q
            ≡ value_in (cow_slice_items values.entry)
            (slice_index starts.items x + slice_index offsets.items q) }
    {
        Rows {
            values,
            starts,
            offsets,
        }
    }
}
