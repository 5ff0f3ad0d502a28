//! Contractions row by row, for operands with few rows: tiles would be filled up with repeated
//! rows. `Dots` is what tensor_kernels puts in a `Contraction`; its values are defined in
//! specs/Dots.

pub(crate) mod row_pair;
pub(crate) mod row_sums;
pub(crate) mod sixteens;
pub(crate) mod small_eight;
pub(crate) mod strip_dots;
pub(crate) mod wide_eight;
pub(crate) mod window_dots;

ghost use Rattle.std.specs.Prelude.{◌≡◌, ℕ, ◌*◌, ◌+◌, ◌<◌, ◌≤◌, length};
ghost use Rattle.tensor_values.specs.Values.{value_in};
ghost use Rattle.tensor_dots.specs.Rows.{row_count, row_length, dot_at};

use crate::dots::row_pair::Row;
use crate::dots::row_sums::row_sums;
use crate::rows::Rows;
use crate::rows::part::RowsPart;

/// Two operands, whose rows have equally many values. The value at place `p` of the result belongs
/// to row `p % rows` of the first operand and row `p / rows` of the second, where the first has
/// `rows` rows.
#[derive(Drop)]
pub struct Dots<'a> {
    first: Rows<'a>,
    second: Rows<'a>,
    ghost lengths: { row_length first ≡ row_length second },
}

impl<'a> Dots<'a> {
    ghost use Rattle.tensor_dots.specs.Dots.{dots_count, dots_value};

    /// Returns the contraction of two operands, to be evaluated row by row.
    pub fn of(first: Rows<'a>, second: Rows<'a>) -> Dots<'a>
        requires { row_length first ≡ row_length second }
        ensures count { dots_count result ≡ row_count second.entry * row_count first.entry }
        ensures value { (p : ℕ) → dots_value result p ≡ dot_at first.entry second.entry p }
    {
        Dots { first, second }
    }

    /// Writes the values of the places from `first` on, as many as `out` has room for, column by
    /// column. A column is a row of the second operand with all rows of the first.
    pub fn fill(&self, first: usize, out: &mut [i64])
        requires { first + length out.old ≤ dots_count self.now }
        ensures len { length out.new ≡ length out.old }
        ensures each { (k : ℕ) → k < length out.old
            → value_in out.new k ≡ dots_value self.now (first + k) }
    {
        let rows = self.first.starts.len();
        let last = first + out.len();
        let mut place = first;
        while place < last {
            let (x, y) = (place % rows, place / rows);
            let count = (rows - x).min(last - place);
            self.fill_column(x, y, &mut out[place - first..place - first + count]);
            place += count;
        }
    }

    /// Writes the values of column `y` from row `x` on.
    fn fill_column(&self, x: usize, y: usize, out: &mut [i64])
        requires x { x + length out.old ≤ row_count self.now.first }
        requires y { y < row_count self.now.second }
        ensures len { length out.new ≡ length out.old }
        ensures each { (k : ℕ) → k < length out.old → value_in out.new k
            ≡ dots_value self.now (y * row_count self.now.first + (x + k)) }
    {
        let rows = RowsPart {
            values: self.first.values.as_slice(),
            starts: &self.first.starts.as_slice()[x..x + out.len()],
            offsets: self.first.offsets.as_slice(),
        };
        let row = Row {
            values: self.second.values.as_slice(),
            start: self.second.starts.as_slice()[y],
            offsets: self.second.offsets.as_slice(),
        };
        row_sums(&rows, &row, out);
    }
}
