//! Rows that are slices of a list. The operands of `StripDots`; their values are defined in
//! specs/Strips.

ghost use Rattle.std.specs.Prelude.{◌≡◌, ◌<◌, ◌≤◌, ◌+◌, ℕ, length, slice_index};
ghost use Rattle.std.specs.Cow.{cow_slice_items};
ghost use Rattle.tensor_shape.specs.Legal.{most_elements};
ghost use Rattle.tensor_values.specs.Values.{value_in};

use std::alloc::Global;
use std::borrow::CowSlice;

/// A list as rows of one width. Row `x` is the slice from its start on. No row is empty.
#[derive(Drop)]
pub struct Strips<'a> {
    pub values: CowSlice<'a, i64, Global>,
    pub starts: Vec<usize>,
    pub width: usize,
    ghost inside: { (x q : ℕ) → x < length starts.items → q < width
        → slice_index starts.items x + q < length (cow_slice_items values) },
    ghost few: { length starts.items ≤ most_elements },
    ghost some: { 0 < width },
}

impl<'a> Strips<'a> {
    ghost use Rattle.tensor_dots.specs.Strips.{strip_count, strip_length, strip_value};

    /// Returns a list as rows of the given width, which begin at the given places.
    pub fn new(values: CowSlice<'a, i64, Global>, starts: Vec<usize>, width: usize) -> Strips<'a>
        requires inside { (x q : ℕ) → x < length starts.items → q < width
            → slice_index starts.items x + q < length (cow_slice_items values) }
        requires few { length starts.items ≤ most_elements }
        requires some { 0 < width }
        ensures count { strip_count result ≡ length starts.items }
        ensures len { strip_length result ≡ width }
        ensures each { (x q : ℕ) → strip_value result x q
            ≡ value_in (cow_slice_items values.entry) (slice_index starts.items x + q) }
    {
        Strips {
            values,
            starts,
            width,
        }
    }

    /// Returns row `x`.
    #[inline(always)]
    pub(crate) fn row(&self, x: usize) -> &[i64]
        requires { x < strip_count self.now }
        ensures len { length result.now ≡ self.now.width }
        ensures each { (q : ℕ) → q < self.now.width
            → value_in result.now q ≡ strip_value self.now x q }
    {
        let start = self.starts[x];
        &self.values.as_slice()[start..start + self.width]
    }
}
