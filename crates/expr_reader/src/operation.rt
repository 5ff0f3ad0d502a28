//! The operations of requests, without their operands and arguments. A new one needs a row in
//! `version.rt`, an arm in `arguments.rt`, its forms in `specs/private/Version`, and a row of
//! `specs/Table`.

ghost use Rattle.std.specs.Prelude.{◌≡◌, length};

use tensor_ops::{BinaryScalar, LineOperation, Reducer, UnaryScalar};

/// An operation on one operand.
#[derive(Clone, Copy, Debug, Eq, PartialEq)]
pub(crate) enum Unary {
    Each(UnaryScalar),
    Constant,
    Broadcast,
    Slice,
    Shuffle,
    Reshape,
    Chip,
    Reverse,
    Stride,
    Pad,
    Reduce(Reducer),
    Along(LineOperation),
}

/// An operation on two operands.
#[derive(Clone, Copy, Debug, Eq, PartialEq)]
pub(crate) enum Binary {
    Pairwise(BinaryScalar),
    Concat,
    Contract,
    Convolve,
    Take,
}

/// An operation with one, two or three operands.
#[derive(Clone, Copy, Debug, Eq, PartialEq)]
pub(crate) enum Operation {
    One(Unary),
    Two(Binary),
    Select,
}

impl Unary {
    ghost use Rattle.expr_reader.specs.private.Version.{forms_of};

    /// Returns how many arguments follow the operand.
    pub(crate) fn arguments(self) -> usize
        ensures { result ≡ length (forms_of self) }
    {
        match self {
            Unary::Each(_) => 0,
            Unary::Constant
            | Unary::Broadcast
            | Unary::Shuffle
            | Unary::Reshape
            | Unary::Reverse
            | Unary::Stride
            | Unary::Pad
            | Unary::Reduce(_)
            | Unary::Along(_) => 1,
            Unary::Slice | Unary::Chip => 2,
        }
    }
}

impl Binary {
    ghost use Rattle.expr_reader.specs.private.Version.{forms_of_two};

    /// Returns how many arguments follow the two operands.
    pub(crate) fn arguments(self) -> usize
        ensures { result ≡ length (forms_of_two self) }
    {
        match self {
            Binary::Pairwise(_) => 0,
            Binary::Concat | Binary::Contract | Binary::Convolve | Binary::Take => 1,
        }
    }
}

impl Operation {
    ghost use Rattle.expr_reader.specs.Table.{arity_of, operands_of};
    ghost use Rattle.expr_reader.specs.private.Version.{operation_under};

    /// Returns how many operands the operation has.
    pub(crate) fn operands(self) -> usize
        ensures { result ≡ operands_of (operation_under self) }
    {
        match self {
            Operation::One(_) => 1,
            Operation::Two(_) => 2,
            Operation::Select => 3,
        }
    }

    /// Returns how many elements follow the operation's name in a node: operands, and then
    /// arguments.
    pub(crate) fn arity(self) -> usize
        ensures { result ≡ arity_of (operation_under self) }
    {
        match self {
            Operation::One(unary) => 1 + unary.arguments(),
            Operation::Two(binary) => 2 + binary.arguments(),
            Operation::Select => 3,
        }
    }
}
