//! The operations on a line of values. A new variant needs its lines of `specs/Lines`, and the
//! matches in tensor_terms, tensor_ops, expr_reader and prepared_expressions.

ghost use Rattle.std.specs.Prelude.{◌≡◌};
ghost use Rattle.tensor_scans.specs.Lines.{is_cumulative, reducer_of, width_of};

use tensor_values::Reducer;

/// An operation on the values along an axis, for each line separately.
#[derive(Clone, Copy, Debug, Drop, Eq, PartialEq)]
pub enum LineOperation {
    /// The sum of each value and all values before it, modulo 2^64.
    Cumsum,
    /// The product of each value and all values before it, modulo 2^64.
    Cumprod,
    /// The number at which the greatest value stands first.
    Argmax,
    /// The number at which the least value stands first.
    Argmin,
}

impl LineOperation {
    /// Whether the result has one value for each value of a line. Otherwise it has one value for
    /// each line.
    #[inline(always)]
    pub fn is_cumulative(self) -> bool
        ensures { result ≡ is_cumulative self }
    {
        match self {
            LineOperation::Cumsum | LineOperation::Cumprod => true,
            LineOperation::Argmax | LineOperation::Argmin => false,
        }
    }

    /// Returns the number of values in the result for a line of `length` values.
    pub fn width(self, length: usize) -> usize
        ensures { result ≡ width_of self length }
    {
        if self.is_cumulative() { length } else { 1 }
    }

    /// Returns the reducer that combines the values of a line. Argmax and argmin look for the place
    /// of the combined value.
    #[inline(always)]
    pub fn reducer(self) -> Reducer
        ensures { result ≡ reducer_of self }
    {
        match self {
            LineOperation::Cumsum => Reducer::Sum,
            LineOperation::Cumprod => Reducer::Prod,
            LineOperation::Argmax => Reducer::Max,
            LineOperation::Argmin => Reducer::Min,
        }
    }
}
