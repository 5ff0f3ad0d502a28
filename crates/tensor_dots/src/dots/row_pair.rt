//! A row of one list and a row of another, as `row_sums` and the functions for sixteen and eight
//! rows take them.

ghost use Rattle.std.specs.Prelude.{◌≡◌, ℕ, ◌+◌, ◌<◌, ◌≤◌, ◌^◌, length, slice_index};
ghost use Rattle.tensor_shape.specs.Legal.{most_elements};

/// A row of a list. Value `q` lies at its start, moved by offset `q`.
#[derive(Clone, Copy, Drop)]
pub(crate) struct Row<'a> {
    pub(crate) values: &'a [i64],
    pub(crate) start: usize,
    pub(crate) offsets: &'a [usize],
    ghost fits: { length values.now < 2 ^ 60 },
    ghost short: { length offsets.now ≤ most_elements },
}

/// Two rows with equally many values. The second lies within its list. The first stands for rows
/// that begin side by side: row `k` of them begins `k` places behind it.
#[derive(Clone, Copy, Drop)]
pub(crate) struct RowPair<'a> {
    pub(crate) first: Row<'a>,
    pub(crate) second: Row<'a>,
    ghost lengths: { length first.offsets.now ≡ length second.offsets.now },
    ghost inside: { (q : ℕ) → q < length second.offsets.now
        → second.start + slice_index second.offsets.now q < length second.values.now },
}
