//! The places at which values are asked for. tensor_ops passes them down an expression; a change
//! touches `specs/Places` and every evaluator there.

/// Places of a result. Each is below `MAX_ELEMENTS`, 2^28, so a list holds 32-bit numbers.
#[derive(Clone, Copy, Drop)]
pub enum Places<'a> {
    /// The places in `[first, last)`.
    Run(usize, usize),
    /// These places, in this order.
    Listed(&'a [u32]),
}

impl Places<'_> {
    ghost use Rattle.std.specs.Prelude.{◌≡◌, length};
    ghost use Rattle.tensor_views.specs.Places.{places_of};

    /// Returns how many places there are.
    pub fn len(&self) -> usize
        ensures { result ≡ length (places_of self.now) }
    {
        match self {
            Places::Run(first, last) => last.saturating_sub(*first),
            Places::Listed(places) => places.len(),
        }
    }
}
