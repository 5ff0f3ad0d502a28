//! Takes the values of lines at a list of numbers, for a range of result places. The values of a
//! row lie side by side in the operand and in the result, so whole rows are copied. A change of
//! what is written touches `specs/Places`.

ghost use Rattle.std.specs.Prelude.{◌≡◌, ◌<◌, ◌≤◌, ◌+◌, ◌-◌, ◌*◌, ◌^◌, ℕ, length, min};
ghost use Rattle.tensor_scans.specs.Lines.{taken_from};
ghost use Rattle.tensor_scans.specs.Places.{line_values, taken_at};
ghost use Rattle.tensor_scans.specs.private.Rows.{line_at, row_of, taken_in};
ghost use Rattle.tensor_values.specs.Values.{value_in};

use crate::lines::Lines;

/// A take of the values at some numbers of each line.
#[derive(Clone, Copy, Drop)]
pub struct TakenLines<'a> {
    /// Where the lines lie in `values`.
    pub lines: Lines,
    /// The values of the tensor.
    pub values: &'a [i64],
    /// The numbers to take from each line, in order. A number outside the line gives 0.
    pub numbers: &'a [i64],
    ghost whole: { length values.now ≡ line_values lines lines.length },
}

impl<'a> TakenLines<'a> {
    /// Writes the values of the result at the places `[first, first + out.len())` and overwrites
    /// what is in `out`. A number that is negative or not below the length of a line gives 0.
    pub fn fill(self, first: usize, out: &mut [i64])
        requires { first + length out.old ≤ line_values self.lines (length self.numbers.now) }
        ensures len { length out.new ≡ length out.old }
        ensures each { (k : ℕ) → k < length out.old → value_in out.new k
            ≡ taken_at self.entry.lines self.entry.numbers.now (value_in self.entry.values.now)
            (first + k) }
    {
        if out.is_empty() {
            return;
        }
        match self.lines.stride {
            1 => self.of_stride(1).fill_by_rows(first, out),
            2 => self.of_stride(2).fill_by_rows(first, out),
            3 => self.of_stride(3).fill_by_rows(first, out),
            4 => self.of_stride(4).fill_by_rows(first, out),
            _ => self.fill_by_rows(first, out),
        }
    }

    /// Returns this take with its stride given as a constant at compile time.
    #[inline(always)]
    fn of_stride(self, stride: usize) -> TakenLines<'a>
        requires { stride ≡ self.lines.stride }
        ensures lines { result.lines ≡ self.entry.lines }
        ensures values { result.values.now ≡ self.entry.values.now }
        ensures numbers { result.numbers.now ≡ self.entry.numbers.now }
    {
        let lines = Lines {
            stride,
            ..self.lines
        };
        TakenLines {
            lines,
            values: self.values,
            numbers: self.numbers,
        }
    }

    /// Writes the values of the result at the places `[first, first + out.len())`, block by block.
    /// `out` must not be empty.
    #[inline(always)]
    fn fill_by_rows(self, first: usize, out: &mut [i64])
        requires some { 0 < length out.old }
        requires within { first + length out.old ≤ line_values self.lines (length self.numbers.now) }
        ensures len { length out.new ≡ length out.old }
        ensures each { (k : ℕ) → k < length out.old → value_in out.new k
            ≡ taken_at self.entry.lines self.entry.numbers.now (value_in self.entry.values.now)
            (first + k) }
    {
        let lines = self.lines;
        let stride = lines.stride;
        let width = stride * lines.length;
        let row = first / stride;
        let mut block = row / self.numbers.len();
        let mut j = row % self.numbers.len();
        let mut column = first % stride;
        let mut done = 0;
        while done < out.len() {
            let from = block * width;
            let values = &self.values[from..from + width];
            let rows = Block { lines, values };
            done += rows.take_from(&self.numbers[j..], column, &mut out[done..]);
            block += 1;
            j = 0;
            column = 0;
        }
    }
}

/// A block of lines, row after row: a row has one value of each line.
#[derive(Clone, Copy, Drop)]
struct Block<'a> {
    /// Where the lines lie in the tensor.
    lines: Lines,
    /// The values of the whole block.
    values: &'a [i64],
    ghost some: { 0 < lines.stride },
    ghost whole: { length values.now ≡ lines.stride * lines.length },
}

impl Block<'_> {
    /// Writes the rows at `numbers`, the first of them from `column` on, as far as `out` has room.
    /// Returns how many values were written.
    #[inline(always)]
    fn take_from(self, numbers: &[i64], column: usize, out: &mut [i64]) -> usize
        requires column { column < self.lines.stride }
        requires some { 0 < length numbers.now }
        ensures count { result
            ≡ min (self.entry.lines.stride * length numbers.now - column) (length out.old) }
        ensures len { length out.new ≡ length out.old }
        ensures each { (k : ℕ) → k < result → value_in out.new k
            ≡ taken_in self.entry.lines numbers.now (value_in self.entry.values.now) (column + k) }
    {
        if column == 0 {
            return self.take_rows(numbers, out);
        }
        let count = (self.lines.stride - column).min(out.len());
        self.put_part(numbers[0], column, &mut out[..count]);
        count + self.take_rows(&numbers[1..], &mut out[count..])
    }

    /// Writes the rows at `numbers`, as far as `out` has room. Returns how many values were
    /// written.
    #[inline(always)]
    fn take_rows(self, numbers: &[i64], out: &mut [i64]) -> usize
        ensures count { result ≡ min (self.entry.lines.stride * length numbers.now) (length out.old) }
        ensures len { length out.new ≡ length out.old }
        ensures each { (k : ℕ) → k < result → value_in out.new k
            ≡ taken_in self.entry.lines numbers.now (value_in self.entry.values.now) k }
    {
        let stride = self.lines.stride;
        if stride == 1 {
            return take_each(self.values, numbers, out);
        }
        let mut done = 0;
        for number in numbers {
            if out.len() - done < stride {
                self.put_part(*number, 0, &mut out[done..]);
                return out.len();
            }
            self.put_row(*number, 0, &mut out[done..done + stride]);
            done += stride;
        }
        done
    }

    /// Writes a part of the row at `number`, from `column` on. This is for the first and the last
    /// row of a range; it is not inlined, unlike `put_row`.
    #[inline(never)]
    fn put_part(self, number: i64, column: usize, out: &mut [i64])
        requires inside { column + length out.old ≤ self.lines.stride }
        ensures len { length out.new ≡ length out.old }
        ensures each { (k : ℕ) → k < length out.old → value_in out.new k ≡ taken_from
            (line_at self.entry.lines (value_in self.entry.values.now) (column + k)) number }
    {
        self.put_row(number, column, out);
    }

    /// Writes a part of the row at `number`, from `column` on; zeroes if a line has no such number.
    #[inline(always)]
    fn put_row(self, number: i64, column: usize, out: &mut [i64])
        requires inside { column + length out.old ≤ self.lines.stride }
        ensures len { length out.new ≡ length out.old }
        ensures each { (k : ℕ) → k < length out.old → value_in out.new k ≡ taken_from
            (line_at self.entry.lines (value_in self.entry.values.now) (column + k)) number }
    {
        match self.row_of(number) {
            Some(row) => {
                let from = row + column;
                out.copy_from_slice(&self.values[from..from + out.len()]);
            }
            None => out.fill(0),
        }
    }

    /// Returns where the row of `number` begins in the block; `None` if a line has no such number.
    #[inline(always)]
    fn row_of(self, number: i64) -> Option<usize>
        ensures { result ≡ row_of self.entry.lines number }
    {
        if number < 0 || number as u64 >= self.lines.length as u64 {
            return None;
        }
        Some(number as usize * self.lines.stride)
    }
}

/// Writes the values of one line at `numbers`, as far as `out` has room. Returns how many values
/// were written.
#[inline(always)]
fn take_each(line: &[i64], numbers: &[i64], out: &mut [i64]) -> usize
    ensures count { result ≡ min (length numbers.now) (length out.old) }
    ensures len { length out.new ≡ length out.old }
    ensures each { (k : ℕ) → k < result
        → value_in out.new k ≡ taken_from line.now (value_in numbers.now k) }
{
    let count = numbers.len().min(out.len());
    for i in 0..count {
        let number = numbers[i].cast_unsigned() as usize;
        out[i] = if number < line.len() { line[number] } else { 0 };
    }
    count
}
