//! The operations without their arguments, and the number of each in a record. A new operation is
//! the last of `KINDS`, and has this number here and in `specs/Numbers`. A changed number needs a
//! new form in `prepared.rt`.

ghost use Rattle.std.specs.Prelude.{◌≡◌, ◌≢◌, IfSome, IfNone};
ghost use Rattle.prepared_expressions.specs.declared.kind.Kind.{Kind};
ghost use Rattle.prepared_expressions.specs.Numbers.{number_of};

use tensor_ops::LineOperation;
use tensor_values::{BinaryScalar, Reducer, UnaryScalar};

/// An operation on one operand, without its arguments.
#[derive(Clone, Copy)]
pub(crate) enum UnaryKind {
    Each(UnaryScalar),
    Constant,
    Broadcast,
    Slice,
    Shuffle,
    Reshape,
    Chip,
    Reverse,
    Stride,
    Pad,
    Reduce(Reducer),
    Along(LineOperation),
}

/// An operation on two operands, without its arguments.
#[derive(Clone, Copy)]
pub(crate) enum BinaryKind {
    Pairwise(BinaryScalar),
    Concat,
    Contract,
    Convolve,
    Take,
}

/// What a node of an expression is: an input, or an operation with one, two or three operands.
#[derive(Clone, Copy)]
pub(crate) enum Kind {
    Input,
    One(UnaryKind),
    Two(BinaryKind),
    Select,
}

/// The kinds in the order of their numbers.
const KINDS: &[Kind] = &[
    Kind::Input,
    Kind::One(UnaryKind::Each(UnaryScalar::Neg)),
    Kind::One(UnaryKind::Each(UnaryScalar::Abs)),
    Kind::One(UnaryKind::Each(UnaryScalar::Square)),
    Kind::One(UnaryKind::Each(UnaryScalar::Not)),
    Kind::Two(BinaryKind::Pairwise(BinaryScalar::Add)),
    Kind::Two(BinaryKind::Pairwise(BinaryScalar::Sub)),
    Kind::Two(BinaryKind::Pairwise(BinaryScalar::Mul)),
    Kind::Two(BinaryKind::Pairwise(BinaryScalar::CwiseMax)),
    Kind::Two(BinaryKind::Pairwise(BinaryScalar::CwiseMin)),
    Kind::Two(BinaryKind::Pairwise(BinaryScalar::Lt)),
    Kind::Two(BinaryKind::Pairwise(BinaryScalar::Le)),
    Kind::Two(BinaryKind::Pairwise(BinaryScalar::Eq)),
    Kind::Two(BinaryKind::Pairwise(BinaryScalar::Ne)),
    Kind::Two(BinaryKind::Pairwise(BinaryScalar::Gt)),
    Kind::Two(BinaryKind::Pairwise(BinaryScalar::Ge)),
    Kind::Two(BinaryKind::Pairwise(BinaryScalar::And)),
    Kind::Two(BinaryKind::Pairwise(BinaryScalar::Or)),
    Kind::Select,
    Kind::One(UnaryKind::Constant),
    Kind::One(UnaryKind::Broadcast),
    Kind::One(UnaryKind::Slice),
    Kind::One(UnaryKind::Shuffle),
    Kind::One(UnaryKind::Reshape),
    Kind::One(UnaryKind::Chip),
    Kind::One(UnaryKind::Reverse),
    Kind::One(UnaryKind::Stride),
    Kind::One(UnaryKind::Pad),
    Kind::Two(BinaryKind::Concat),
    Kind::One(UnaryKind::Reduce(Reducer::Sum)),
    Kind::One(UnaryKind::Reduce(Reducer::Prod)),
    Kind::One(UnaryKind::Reduce(Reducer::Max)),
    Kind::One(UnaryKind::Reduce(Reducer::Min)),
    Kind::One(UnaryKind::Reduce(Reducer::All)),
    Kind::One(UnaryKind::Reduce(Reducer::Any)),
    Kind::Two(BinaryKind::Contract),
    Kind::Two(BinaryKind::Convolve),
    Kind::Two(BinaryKind::Pairwise(BinaryScalar::FloorDivide)),
    Kind::Two(BinaryKind::Pairwise(BinaryScalar::Remainder)),
    Kind::Two(BinaryKind::Pairwise(BinaryScalar::BitAnd)),
    Kind::Two(BinaryKind::Pairwise(BinaryScalar::BitOr)),
    Kind::Two(BinaryKind::Pairwise(BinaryScalar::BitXor)),
    Kind::One(UnaryKind::Each(UnaryScalar::BitNot)),
    Kind::Two(BinaryKind::Pairwise(BinaryScalar::ShiftLeft)),
    Kind::Two(BinaryKind::Pairwise(BinaryScalar::ShiftRight)),
    Kind::One(UnaryKind::Along(LineOperation::Cumsum)),
    Kind::One(UnaryKind::Along(LineOperation::Cumprod)),
    Kind::One(UnaryKind::Along(LineOperation::Argmax)),
    Kind::One(UnaryKind::Along(LineOperation::Argmin)),
    Kind::Two(BinaryKind::Take),
    Kind::One(UnaryKind::Each(UnaryScalar::BitCount)),
];

impl Kind {
    /// Returns the number of this kind in a record.
    pub(crate) fn number(self) -> u64
        ensures { result ≡ number_of self }
    {
        match self {
            Kind::Input => 0,
            Kind::One(kind) => kind.number(),
            Kind::Two(kind) => kind.number(),
            Kind::Select => 18,
        }
    }

    /// Returns the kind with this number.
    pub(crate) fn of(number: u64) -> Option<Kind>
        ensures known { IfSome result (λ kind. number_of kind ≡ number) }
        ensures unknown { IfNone result ((kind : Kind) → number_of kind ≢ number) }
    {
        let index = number as usize;
        if index < KINDS.len() {
            Some(KINDS[index])
        } else {
            None
        }
    }
}

impl UnaryKind {
    ghost use Rattle.prepared_expressions.specs.Numbers.{unary_number};

    /// Returns the number of this kind in a record.
    pub(crate) fn number(self) -> u64
        ensures { result ≡ unary_number self }
    {
        match self {
            UnaryKind::Each(UnaryScalar::Neg) => 1,
            UnaryKind::Each(UnaryScalar::Abs) => 2,
            UnaryKind::Each(UnaryScalar::Square) => 3,
            UnaryKind::Each(UnaryScalar::Not) => 4,
            UnaryKind::Each(UnaryScalar::BitNot) => 42,
            UnaryKind::Each(UnaryScalar::BitCount) => 50,
            UnaryKind::Constant => 19,
            UnaryKind::Broadcast => 20,
            UnaryKind::Slice => 21,
            UnaryKind::Shuffle => 22,
            UnaryKind::Reshape => 23,
            UnaryKind::Chip => 24,
            UnaryKind::Reverse => 25,
            UnaryKind::Stride => 26,
            UnaryKind::Pad => 27,
            UnaryKind::Reduce(Reducer::Sum) => 29,
            UnaryKind::Reduce(Reducer::Prod) => 30,
            UnaryKind::Reduce(Reducer::Max) => 31,
            UnaryKind::Reduce(Reducer::Min) => 32,
            UnaryKind::Reduce(Reducer::All) => 33,
            UnaryKind::Reduce(Reducer::Any) => 34,
            UnaryKind::Along(LineOperation::Cumsum) => 45,
            UnaryKind::Along(LineOperation::Cumprod) => 46,
            UnaryKind::Along(LineOperation::Argmax) => 47,
            UnaryKind::Along(LineOperation::Argmin) => 48,
        }
    }
}

impl BinaryKind {
    ghost use Rattle.prepared_expressions.specs.Numbers.{binary_number};

    /// Returns the number of this kind in a record.
    pub(crate) fn number(self) -> u64
        ensures { result ≡ binary_number self }
    {
        match self {
            BinaryKind::Pairwise(BinaryScalar::Add) => 5,
            BinaryKind::Pairwise(BinaryScalar::Sub) => 6,
            BinaryKind::Pairwise(BinaryScalar::Mul) => 7,
            BinaryKind::Pairwise(BinaryScalar::CwiseMax) => 8,
            BinaryKind::Pairwise(BinaryScalar::CwiseMin) => 9,
            BinaryKind::Pairwise(BinaryScalar::Lt) => 10,
            BinaryKind::Pairwise(BinaryScalar::Le) => 11,
            BinaryKind::Pairwise(BinaryScalar::Eq) => 12,
            BinaryKind::Pairwise(BinaryScalar::Ne) => 13,
            BinaryKind::Pairwise(BinaryScalar::Gt) => 14,
            BinaryKind::Pairwise(BinaryScalar::Ge) => 15,
            BinaryKind::Pairwise(BinaryScalar::And) => 16,
            BinaryKind::Pairwise(BinaryScalar::Or) => 17,
            BinaryKind::Pairwise(BinaryScalar::FloorDivide) => 37,
            BinaryKind::Pairwise(BinaryScalar::Remainder) => 38,
            BinaryKind::Pairwise(BinaryScalar::BitAnd) => 39,
            BinaryKind::Pairwise(BinaryScalar::BitOr) => 40,
            BinaryKind::Pairwise(BinaryScalar::BitXor) => 41,
            BinaryKind::Pairwise(BinaryScalar::ShiftLeft) => 43,
            BinaryKind::Pairwise(BinaryScalar::ShiftRight) => 44,
            BinaryKind::Concat => 28,
            BinaryKind::Contract => 35,
            BinaryKind::Convolve => 36,
            BinaryKind::Take => 49,
        }
    }
}
