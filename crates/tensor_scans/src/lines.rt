//! Where lines lie among the values of a tensor. A change touches `specs/Places`, and `AxisLines`
//! of tensor_terms, which makes lines from dims and an axis.

ghost use Rattle.std.specs.Prelude.{◌≡◌, ◌<◌, ◌≤◌, ◌^◌};
ghost use Rattle.tensor_scans.specs.Places.{line_place, line_values, number_at};

/// The lines along an axis. A tensor is a list of blocks, a block is a list of rows, and each row
/// has one value of each line of its block. A value's number is its position in its line.
#[derive(Clone, Copy, Debug, Drop, Eq, PartialEq)]
pub struct Lines {
    /// The number of values in a row, which is the distance between neighbours in a line: the
    /// product of the sizes before the axis.
    pub stride: usize,
    /// The number of values in a line: the size of the axis.
    pub length: usize,
    /// The number of blocks: the product of the sizes after the axis.
    pub blocks: usize,
}

impl Lines {
    /// Returns the place of number `k` in the line that `result_place` belongs to. The result is a
    /// tensor in which each line has `width` values.
    pub fn place(self, width: usize, result_place: usize, k: usize) -> usize
        requires below { result_place < line_values self width }
        requires number { k < self.length }
        requires few { line_values self self.length < 2 ^ 63 }
        ensures place { result ≡ line_place self width result_place k }
        ensures below { result < line_values self self.length }
    {
        let block = result_place / self.stride / width;
        result_place % self.stride + self.stride * (k + self.length * block)
    }

    /// Returns the number that `result_place` has in its line. The result is a tensor in which each
    /// line has `width` values.
    pub fn number(self, width: usize, result_place: usize) -> usize
        requires below { result_place < line_values self width }
        ensures number { result ≡ number_at self width result_place }
        ensures below { result < width }
    {
        result_place / self.stride % width
    }
}
