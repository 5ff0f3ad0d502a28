//! The size of half of the rows of an operand, in panels. Quarters and factors have this size.

ghost use Rattle.std.specs.Prelude.{◌≡◌, ◌*◌, ◌<◌, ◌≤◌};

/// The number of panels of half of the rows, and the height of a panel. A chunk has 128 products.
#[derive(Clone, Copy, Drop)]
pub(crate) struct Half {
    pub(crate) panels: usize,
    pub(crate) height: usize,
    ghost some: { 0 < height },
    ghost low: { height ≤ 16 },
    ghost few: { panels * height ≤ 256 },
}

impl Half {
    ghost use Rattle.tensor_kernels.specs.private.Quartering.{half_size};

    /// Returns the number of cells of a quarter.
    pub(crate) fn size(self) -> usize
        ensures cells { result ≡ half_size self }
        ensures few { result ≤ 32768 }
    {
        self.panels * (128 * self.height)
    }
}
