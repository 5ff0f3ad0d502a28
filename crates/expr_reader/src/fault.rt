//! The faults of requests. A change of a fault, its number or its name also changes
//! `specs/Faults`, the table of faults in docs/REQUEST.md, and `python/tensor_client/faults.py`.

ghost use Rattle.std.specs.Prelude.{◌≡◌};

use tensor_ops::ExprFault;
use thiserror::Error;

/// Why a request has no answer. The variants are in the order of their numbers, 1 to 15. Faults 1
/// to 7 are checked in this order, then 8 to 14 on one walk over the expression's tree. `NoMemory`
/// may come before any of them.
#[derive(Clone, Copy, Debug, Drop, Eq, PartialEq, Error)]
pub enum Fault {
    /// The text has more than 16,777,216 bytes, or a header has more values after it than its
    /// version allows.
    #[error("the text is too long")]
    TooLong = 1,
    /// The text is not JSON: bad UTF-8, arrays and objects nested deeper than 127, text after the
    /// value, or no text at all.
    #[error("the text is not JSON")]
    NotJson = 2,
    /// The value is not an object, or a field is missing, or there is another field.
    #[error("the fields are not those of a request")]
    BadField = 3,
    /// The version is not known.
    #[error("the version is not known")]
    BadVersion = 4,
    /// The number of workers is out of range.
    #[error("the number of workers is out of range")]
    BadWorkers = 5,
    /// The block is out of range.
    #[error("the block is out of range")]
    BadBlock = 6,
    /// An input is not a tensor, or has more or fewer values than its dims have places.
    #[error("an input is no tensor")]
    BadTensor = 7,
    /// A name in the expression is neither an input nor a binding.
    #[error("a name is no input's")]
    UnknownInput = 8,
    /// A node is neither a name nor an operation of the version.
    #[error("a node is no operation")]
    UnknownOp = 9,
    /// A node has another number of operands and arguments than its operation takes.
    #[error("an operation has too many or too few elements")]
    BadArity = 10,
    /// An argument does not have the form that the operation takes.
    #[error("an argument is not of its form")]
    BadArgument = 11,
    /// Dims that have to be equal differ, or a list has more or fewer elements than there are axes.
    #[error("the shapes do not match")]
    ShapeMismatch = 12,
    /// An argument names an axis or an index that does not exist.
    #[error("an argument is out of range")]
    OutOfRange = 13,
    /// A result, the work for it, or the number of nodes is above the limit.
    #[error("the expression is too large")]
    TooLarge = 14,
    /// An allocation failed.
    #[error("there is no memory")]
    NoMemory = 15,
}

impl Fault {
    ghost use Rattle.expr_reader.specs.Faults.{fault_number, fault_name};

    /// Returns the fault's number, from 1 to 15.
    pub fn number(self) -> u32
        ensures { result ≡ fault_number self }
    {
        self as u32
    }

    /// Returns the fault's name, as the line of an answer has it.
    pub fn name(self) -> &'static str
        ensures { result.now ≡ fault_name self }
    {
        match self {
            Fault::TooLong => "TooLong",
            Fault::NotJson => "NotJson",
            Fault::BadField => "BadField",
            Fault::BadVersion => "BadVersion",
            Fault::BadWorkers => "BadWorkers",
            Fault::BadBlock => "BadBlock",
            Fault::BadTensor => "BadTensor",
            Fault::UnknownInput => "UnknownInput",
            Fault::UnknownOp => "UnknownOp",
            Fault::BadArity => "BadArity",
            Fault::BadArgument => "BadArgument",
            Fault::ShapeMismatch => "ShapeMismatch",
            Fault::OutOfRange => "OutOfRange",
            Fault::TooLarge => "TooLarge",
            Fault::NoMemory => "NoMemory",
        }
    }
}

impl From<ExprFault> for Fault {
    ghost use Rattle.std.specs.Prelude.{◌≡◌};
    ghost use Rattle.expr_reader.specs.Faults.{text_fault};

    ghost from_gives = { λ fault found. found ≡ text_fault fault };

    fn from(fault: ExprFault) -> Fault {
        match fault {
            ExprFault::ShapeMismatch => Fault::ShapeMismatch,
            ExprFault::OutOfRange => Fault::OutOfRange,
            ExprFault::TooLarge => Fault::TooLarge,
        }
    }
}
