//! The versions of requests, and what each allows. `specs/Profile` has their limits and
//! `specs/Table` their operations; both have to change with this file, and docs/REQUEST.md or
//! FRAMES.md.

ghost use Rattle.std.specs.Prelude.{◌≡◌, ◌≤◌, option_map, option_and_then};
ghost use Rattle.serde_json.specs.View.{view};
ghost use Rattle.tensor_ops.specs.Legal.{IsPossible};
ghost use Rattle.expr_reader.specs.Expression.{is_let};
ghost use Rattle.expr_reader.specs.Limits.{widest_nodes};
ghost use Rattle.expr_reader.specs.Profile.{operation_named, frame_profile_of};
ghost use Rattle.expr_reader.specs.Table.{operands_of};
ghost use Rattle.expr_reader.specs.private.Version.{operation_under, table_under};

use crate::operation::Binary::Pairwise;
use crate::operation::Operation::{One, Two};
use crate::operation::Unary::{Along, Each, Reduce};
use crate::operation::{Binary, Operation, Unary};
use crate::{MAX_BLOCK, MAX_NODES, MAX_VALUES, WIDEST_BLOCK, WIDEST_NODES, WIDEST_VALUES};
use serde_json::Value;
use tensor_ops::{BinaryScalar, Bounds, LineOperation, Reducer, UnaryScalar, WIDEST};

/// The operations by name: first those of version 1, then those that versions 2 and 3 add.
const OPERATIONS: &[(&str, Operation)] = &[
    ("neg", One(Each(UnaryScalar::Neg))),
    ("abs", One(Each(UnaryScalar::Abs))),
    ("square", One(Each(UnaryScalar::Square))),
    ("not", One(Each(UnaryScalar::Not))),
    ("add", Two(Pairwise(BinaryScalar::Add))),
    ("sub", Two(Pairwise(BinaryScalar::Sub))),
    ("mul", Two(Pairwise(BinaryScalar::Mul))),
    ("cwise_max", Two(Pairwise(BinaryScalar::CwiseMax))),
    ("cwise_min", Two(Pairwise(BinaryScalar::CwiseMin))),
    ("lt", Two(Pairwise(BinaryScalar::Lt))),
    ("le", Two(Pairwise(BinaryScalar::Le))),
    ("eq", Two(Pairwise(BinaryScalar::Eq))),
    ("ne", Two(Pairwise(BinaryScalar::Ne))),
    ("gt", Two(Pairwise(BinaryScalar::Gt))),
    ("ge", Two(Pairwise(BinaryScalar::Ge))),
    ("and", Two(Pairwise(BinaryScalar::And))),
    ("or", Two(Pairwise(BinaryScalar::Or))),
    ("select", Operation::Select),
    ("constant", One(Unary::Constant)),
    ("broadcast", One(Unary::Broadcast)),
    ("slice", One(Unary::Slice)),
    ("shuffle", One(Unary::Shuffle)),
    ("reshape", One(Unary::Reshape)),
    ("chip", One(Unary::Chip)),
    ("reverse", One(Unary::Reverse)),
    ("sum", One(Reduce(Reducer::Sum))),
    ("prod", One(Reduce(Reducer::Prod))),
    ("maximum", One(Reduce(Reducer::Max))),
    ("minimum", One(Reduce(Reducer::Min))),
    ("all", One(Reduce(Reducer::All))),
    ("any", One(Reduce(Reducer::Any))),
    ("contract", Two(Binary::Contract)),
    ("stride", One(Unary::Stride)),
    ("pad", One(Unary::Pad)),
    ("concat", Two(Binary::Concat)),
    ("convolve", Two(Binary::Convolve)),
    ("floor_divide", Two(Pairwise(BinaryScalar::FloorDivide))),
    ("remainder", Two(Pairwise(BinaryScalar::Remainder))),
    ("bit_and", Two(Pairwise(BinaryScalar::BitAnd))),
    ("bit_or", Two(Pairwise(BinaryScalar::BitOr))),
    ("bit_xor", Two(Pairwise(BinaryScalar::BitXor))),
    ("bit_not", One(Each(UnaryScalar::BitNot))),
    ("bit_count", One(Each(UnaryScalar::BitCount))),
    ("shift_left", Two(Pairwise(BinaryScalar::ShiftLeft))),
    ("shift_right", Two(Pairwise(BinaryScalar::ShiftRight))),
    ("cumsum", One(Along(LineOperation::Cumsum))),
    ("cumprod", One(Along(LineOperation::Cumprod))),
    ("argmax", One(Along(LineOperation::Argmax))),
    ("argmin", One(Along(LineOperation::Argmin))),
    ("take", Two(Binary::Take)),
];

/// A version of a request.
#[derive(Clone, Copy, Debug, Eq, PartialEq)]
pub(crate) enum Version {
    One,
    Two,
    Three,
}

/// Which versions there are: 1 and 2 for a text, 1 to 3 for a frame.
#[derive(Clone, Copy, Debug, Eq, PartialEq)]
pub(crate) enum Versions {
    OfTexts,
    OfFrames,
}

impl Version {
    ghost use Rattle.expr_reader.specs.Profile.{operation_named};
    ghost use Rattle.expr_reader.specs.private.Version.{profile_under, versions_under};
    ghost use Rattle.expr_reader.specs.private.Version.{operation_under, table_under};

    /// Returns the version with this number, if it is one of `versions`.
    pub(crate) fn of(number: u64, versions: Versions) -> Option<Version>
        ensures { option_map profile_under result ≡ versions_under versions number }
    {
        match (number, versions) {
            (1, _) => Some(Version::One),
            (2, _) => Some(Version::Two),
            (3, Versions::OfFrames) => Some(Version::Three),
            _ => None,
        }
    }

    /// Returns the largest number of workers.
    pub(crate) fn workers(self) -> u64
        ensures { result ≡ (profile_under self).workers }
    {
        match self {
            Version::One => 64,
            Version::Two | Version::Three => 256,
        }
    }

    /// Returns the largest number of nodes of an expression.
    pub(crate) fn nodes(self) -> u64
        ensures value { result ≡ (profile_under self).nodes }
        ensures limit { (profile_under self).nodes ≤ widest_nodes }
    {
        match self {
            Version::One | Version::Two => MAX_NODES,
            Version::Three => WIDEST_NODES,
        }
    }

    /// Returns the largest number of values after a header.
    pub(crate) fn values(self) -> usize
        ensures { result ≡ (profile_under self).values }
    {
        match self {
            Version::One | Version::Two => MAX_VALUES,
            Version::Three => WIDEST_VALUES,
        }
    }

    /// Returns whether the first element of a node makes it a `let`.
    pub(crate) fn is_let(self, head: &Value) -> bool
        ensures { result ≡ is_let (profile_under self) (view head.now) }
    {
        match self {
            Version::One | Version::Two => false,
            Version::Three => head.as_str() == Some("let"),
        }
    }

    /// Returns the largest block.
    pub(crate) fn block(self) -> u64
        ensures { result ≡ (profile_under self).block }
    {
        match self {
            Version::One | Version::Two => MAX_BLOCK,
            Version::Three => WIDEST_BLOCK,
        }
    }

    /// Returns the bounds on the dims of inputs and results.
    pub(crate) fn bounds(self) -> Bounds
        ensures value { result ≡ (profile_under self).bounds }
        ensures limit { IsPossible result }
    {
        match self {
            Version::One => Bounds::of_text(6),
            Version::Two => Bounds::of_text(8),
            Version::Three => WIDEST,
        }
    }

    /// Returns the operation with this name.
    pub(crate) fn operation(self, name: &str) -> Option<Operation>
        ensures { option_map operation_under result
            ≡ operation_named name.now (profile_under self).operations }
    {
        operation_in(self.operations(), name)
    }

    /// Returns the operations by name.
    fn operations(self) -> &'static [(&'static str, Operation)]
        ensures { table_under result.now ≡ (profile_under self).operations }
    {
        match self {
            Version::One => &OPERATIONS[..32],
            Version::Two => &OPERATIONS[..36],
            Version::Three => OPERATIONS,
        }
    }
}

/// Returns how many operands the operation with this name has in a version.
pub fn operands_in(version: u64, name: &str) -> Option<usize>
    ensures { result ≡ option_and_then (λ profile. option_map operands_of
        (operation_named name.now profile.operations)) (frame_profile_of version) }
{
    let operation = Version::of(version, Versions::OfFrames)?.operation(name)?;
    Some(operation.operands())
}

/// Returns the first operation with this name in a table.
fn operation_in(table: &[(&str, Operation)], name: &str) -> Option<Operation>
    ensures { option_map operation_under result
        ≡ operation_named name.now (table_under table.now) }
{
    for row in table {
        if name == row.0 {
            return Some(row.1);
        }
    }
    None
}
