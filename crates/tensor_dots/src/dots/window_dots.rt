//! Convolutions by runs of result places. `WindowDots` is what tensor_kernels puts in a
//! `Contraction`; its values are defined in specs/WindowDots.

ghost use Rattle.std.specs.Prelude.{◌≡◌, ℕ, ◌*◌, ◌+◌, ◌<◌, ◌≤◌, length, IsTrue};
ghost use Rattle.std.specs.Cow.{cow_slice_items};
ghost use Rattle.tensor_dots.specs.Lanes.{AreSmall};
ghost use Rattle.tensor_values.specs.Values.{value_in};
ghost use Rattle.tensor_dots.specs.Products.{rows_dot};
ghost use Rattle.tensor_dots.specs.Rows.{row_count, row_length, row_value};
ghost use Rattle.tensor_dots.specs.Windows.{window_count, window_length, window_value};

use crate::dots::row_pair::{Row, RowPair};
use crate::dots::row_sums::sums_of_run;
use crate::lanes::small::are_small;
use crate::rows::Rows;
use crate::rows::windows::Windows;

/// An operand as runs, and a kernel as one row with a value for each offset of the runs. `small`
/// remembers whether all values of both lists fit 32 bits.
#[derive(Drop)]
pub struct WindowDots<'a> {
    runs: Windows<'a>,
    kernel: Rows<'a>,
    small: bool,
    ghost one: { row_count kernel ≡ 1 },
    ghost lengths: { window_length runs ≡ row_length kernel },
    ghost narrow: { IsTrue small
        → AreSmall (cow_slice_items runs.values) × AreSmall (cow_slice_items kernel.values) },
}

impl<'a> WindowDots<'a> {
    ghost use Rattle.tensor_dots.specs.WindowDots.{window_dots_count, window_dots_value};

    /// Returns the convolution of an operand with a kernel. Looks at the values of both lists until
    /// one doesn't fit 32 bits.
    pub fn of(runs: Windows<'a>, kernel: Rows<'a>) -> WindowDots<'a>
        requires one { row_count kernel ≡ 1 }
        requires lengths { window_length runs ≡ row_length kernel }
        ensures count { window_dots_count result ≡ window_count runs.entry }
        ensures value { (p : ℕ) → window_dots_value result p
            ≡ rows_dot (window_count runs.entry) (window_length runs.entry) (window_value runs.entry)
            (row_value kernel.entry) p }
    {
        let small = are_small(runs.values.as_slice()) && are_small(kernel.values.as_slice());
        WindowDots {
            runs,
            kernel,
            small,
        }
    }

    /// Writes the values of the places from `first` on, as many as `out` has room for, run by run.
    pub fn fill(&self, first: usize, out: &mut [i64])
        requires { first + length out.old ≤ window_dots_count self.now }
        ensures len { length out.new ≡ length out.old }
        ensures each { (k : ℕ) → k < length out.old
            → value_in out.new k ≡ window_dots_value self.now (first + k) }
    {
        let width = self.runs.width;
        let last = first + out.len();
        let mut place = first;
        while place < last {
            let (run, index) = (place / width, place % width);
            let count = (width - index).min(last - place);
            self.fill_run(run, index, &mut out[place - first..place - first + count]);
            place += count;
        }
    }

    /// Writes values of a run from its place `index` on.
    fn fill_run(&self, run: usize, index: usize, out: &mut [i64])
        requires run { run < length self.now.runs.starts.items }
        requires some { 0 < length out.old }
        requires within { index + length out.old ≤ self.now.runs.width }
        ensures len { length out.new ≡ length out.old }
        ensures each { (k : ℕ) → k < length out.old → value_in out.new k
            ≡ window_dots_value self.now (run * self.now.runs.width + (index + k)) }
    {
        let under = Row {
            values: self.runs.values.as_slice(),
            start: self.runs.starts.as_slice()[run] + index,
            offsets: self.runs.offsets.as_slice(),
        };
        let kernel = Row {
            values: self.kernel.values.as_slice(),
            start: self.kernel.starts.as_slice()[0],
            offsets: self.kernel.offsets.as_slice(),
        };
        let pair = RowPair {
            first: under,
            second: kernel,
        };
        sums_of_run(&pair, self.small, out);
    }
}
