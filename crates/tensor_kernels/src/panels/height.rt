//! The heights that panels of the first operand can have. A new one needs a tile function in
//! `tiling::small` and in `tiling::pairs`.

ghost use Rattle.std.specs.Prelude.{◌≡◌, ◌<◌, ◌≤◌};

/// How many rows a panel of the first operand has: sixteen, or four if panels of sixteen would have
/// too many repeated rows.
#[derive(Clone, Copy, Drop)]
pub(crate) enum Height {
    Sixteen,
    Four,
}

impl Height {
    ghost use Rattle.tensor_kernels.specs.private.Cells.{height_of};

    /// Returns the height to use for the given number of rows. A row in a panel of four takes a
    /// third longer than one in a panel of sixteen.
    pub(crate) fn for_rows(rows: usize) -> Height {
        if 3 * rows.div_ceil(16) <= rows.div_ceil(4) {
            Height::Sixteen
        } else {
            Height::Four
        }
    }

    /// Returns the number of rows of a panel.
    pub(crate) fn rows(self) -> usize
        ensures { result ≡ height_of self }
    {
        match self {
            Height::Sixteen => 16,
            Height::Four => 4,
        }
    }
}
