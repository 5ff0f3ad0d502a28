//! Limits on dims: a rank and an element count. A change of a limit touches `lib.rt`, `specs/Legal`
//! (which has each number again) and what a request text may have.

use crate::{MAX_ELEMENTS, MAX_RANK, TEXT_ELEMENTS};

/// Limits on the rank and the element count of dims. `Dims::within` takes limits that are at most
/// [`WIDEST`].
#[derive(Clone, Copy, Debug, Eq, PartialEq)]
pub struct Bounds {
    /// The highest rank.
    pub rank: usize,
    /// The greatest product of all dimensions, a 0 counted as 1.
    pub elements: u64,
}

/// The limits of every `Dims`, wherever it comes from.
pub const WIDEST: Bounds = Bounds {
    rank: MAX_RANK,
    elements: MAX_ELEMENTS,
};

impl Bounds {
    ghost use Rattle.std.specs.Prelude.{◌≡◌};
    ghost use Rattle.tensor_shape.specs.Legal.{text_bounds, widest};

    /// Returns [`WIDEST`], the limits of every `Dims`.
    pub fn widest() -> Bounds
        ensures { result ≡ widest }
    {
        WIDEST
    }

    /// Returns the limits of a request text: the given highest rank, and at most
    /// [`TEXT_ELEMENTS`](crate::TEXT_ELEMENTS) elements.
    pub fn of_text(rank: usize) -> Bounds
        ensures { result ≡ text_bounds rank }
    {
        Bounds {
            rank,
            elements: TEXT_ELEMENTS,
        }
    }
}
