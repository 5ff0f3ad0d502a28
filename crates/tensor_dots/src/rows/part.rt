//! Some rows of an operand, with some of the values of each. tensor_kernels packs and sums such
//! parts.

ghost use Rattle.std.specs.Prelude.{◌<◌, ◌≤◌, ◌^◌, length};
ghost use Rattle.tensor_shape.specs.Legal.{most_elements};
ghost use Rattle.tensor_dots.specs.Inside.{AreInside};

/// Borrowed rows of a list, given by their starts. Value `q` of a row lies at its start, moved by
/// offset `q`.
#[derive(Clone, Copy, Drop)]
pub struct RowsPart<'a> {
    pub values: &'a [i64],
    pub starts: &'a [usize],
    pub offsets: &'a [usize],
    ghost inside: { AreInside values.now starts.now offsets.now },
    ghost fits: { length values.now < 2 ^ 60 },
    ghost few: { length starts.now ≤ most_elements },
    ghost short: { length offsets.now ≤ most_elements },
}
