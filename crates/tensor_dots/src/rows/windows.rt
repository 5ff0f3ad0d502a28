//! The operand of a convolution as runs of result places. The operand of `WindowDots`; its values
//! are defined in specs/Windows.

ghost use Rattle.std.specs.Prelude.{◌≡◌, ◌<◌, ◌≤◌, ◌+◌, ◌*◌, ◌/◌, ◌%◌, ℕ, length, slice_index};
ghost use Rattle.std.specs.Cow.{cow_slice_items};
ghost use Rattle.tensor_shape.specs.Legal.{most_elements};
ghost use Rattle.tensor_values.specs.Values.{value_in};

use std::alloc::Global;
use std::borrow::CowSlice;

/// A list that a kernel slides over, cut in runs of `width` result places. In a run the value under
/// place `q` of the kernel lies at the run's start, moved by the place in the run and by offset
/// `q`.
#[derive(Drop)]
pub struct Windows<'a> {
    pub values: CowSlice<'a, i64, Global>,
    pub starts: Vec<usize>,
    pub width: usize,
    pub offsets: Vec<usize>,
    ghost inside: { (x q : ℕ) → x < length starts.items * width → q < length offsets.items
        → slice_index starts.items (x / width) + x % width + slice_index offsets.items q
        < length (cow_slice_items values) },
    ghost few: { length starts.items * width ≤ most_elements },
    ghost some: { 0 < length offsets.items },
}

impl<'a> Windows<'a> {
    ghost use Rattle.tensor_dots.specs.Windows.{window_count, window_length, window_value};

    /// Returns a list as runs of the given width: a start for each run, and an offset for each
    /// place of the kernel.
    pub fn new(
        values: CowSlice<'a, i64, Global>,
        starts: Vec<usize>,
        width: usize,
        offsets: Vec<usize>,
    ) -> Windows<'a>
        requires inside { (x q : ℕ) → x < length starts.items * width → q < length offsets.items
            → slice_index starts.items (x / width) + x % width + slice_index offsets.items q
            < length (cow_slice_items values) }
        requires few { length starts.items * width ≤ most_elements }
        requires some { 0 < length offsets.items }
        ensures count { window_count result ≡ length starts.items * width }
        ensures len { window_length result ≡ length offsets.items }
        ensures each { (x q : ℕ) → window_value result x q
            ≡ value_in (cow_slice_items values.entry)
            (slice_index starts.items (x / width) + x % width
            + slice_index offsets.items q) }
    {
        Windows {
            values,
            starts,
            width,
            offsets,
        }
    }
}
