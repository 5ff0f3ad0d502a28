//! The faults of dims. A change of a number or of words touches `specs/Faults`.

use std::error::Error;
use std::fmt;

/// Why a list of sizes is not the dims of a tensor.
#[derive(Clone, Copy, Debug, Drop, Eq, PartialEq)]
pub enum ShapeFault {
    /// There are more axes than the limit. This is checked first.
    RankTooHigh = 1,
    /// The product of all sizes, a 0 counted as 1, is above the limit.
    TooManyElements = 2,
}

impl ShapeFault {
    ghost use Rattle.std.specs.Prelude.{◌≡◌};
    ghost use Rattle.tensor_shape.specs.Faults.{number_of_shape, words_of_shape};

    /// Returns the fault's number.
    pub fn number(self) -> u8
        ensures { result ≡ number_of_shape self }
    {
        self as u8
    }

    /// Returns the fault in words, as `Display` writes it.
    pub fn words(self) -> &'static str
        ensures { result.now ≡ words_of_shape self }
    {
        match self {
            ShapeFault::RankTooHigh => "the rank is too high",
            ShapeFault::TooManyElements => "there are too many elements",
        }
    }
}

impl fmt::Display for ShapeFault {
    fn fmt<W: fmt::Write>(&self, f: &mut fmt::Formatter<W>) -> fmt::Result {
        f.write_str(self.words())
    }
}

impl Error for ShapeFault {}
