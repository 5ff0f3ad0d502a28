//! Facts of operations that decide how an expression is cut into steps and evaluated. tensor_reduce,
//! tensor_runner and tensor_c ask for them; a change touches `specs/Facts`.

ghost use Rattle.std.specs.Prelude.{◌≡◌};
ghost use Rattle.tensor_terms.specs.Facts.{combines, combines_two, is_combining};
ghost use Rattle.tensor_terms.specs.Facts.{is_movement, is_reshape, keeps_strides};
ghost use Rattle.tensor_terms.specs.Tree.{term_of, unary_at, binary_at, movement_at};

use crate::expr::Expr;
use crate::expr::node::{Binary, Movement, Node, Unary};

impl Unary<'_> {
    /// Returns whether the operation needs its operand as a tensor: a reduction or an operation
    /// along an axis.
    pub fn combines(self) -> bool
        ensures { result ≡ combines (unary_at self.entry) }
    {
        match self {
            Unary::Each(_) | Unary::Constant(_) | Unary::Move(_) | Unary::Pad(_) => false,
            Unary::Reduce(_, _) | Unary::Along(_, _) => true,
        }
    }

    /// Returns whether the operation is a movement.
    pub fn is_movement(self) -> bool
        ensures { result ≡ is_movement (unary_at self.entry) }
    {
        match self {
            Unary::Each(_)
            | Unary::Constant(_)
            | Unary::Pad(_)
            | Unary::Reduce(_, _)
            | Unary::Along(_, _) => false,
            Unary::Move(_) => true,
        }
    }

    /// Returns whether the operation is a movement that leaves each value at its place.
    pub fn is_reshape(self) -> bool
        ensures { result ≡ is_reshape (unary_at self.entry) }
    {
        match self {
            Unary::Move(Movement::Reshape(_)) => true,
            Unary::Each(_)
            | Unary::Constant(_)
            | Unary::Pad(_)
            | Unary::Reduce(_, _)
            | Unary::Along(_, _)
            | Unary::Move(
                Movement::Broadcast(_)
                | Movement::Slice(_, _)
                | Movement::Shuffle(_)
                | Movement::Chip(_, _)
                | Movement::Reverse(_)
                | Movement::Stride(_),
            ) => false,
        }
    }
}

impl Binary<'_> {
    /// Returns whether the operation needs both operands as tensors: a contraction, a convolution
    /// or a take.
    pub fn combines(self) -> bool
        ensures { result ≡ combines_two (binary_at self.entry) }
    {
        match self {
            Binary::Pairwise(_) | Binary::Concat(_) => false,
            Binary::Contract(_) | Binary::Convolve(_) | Binary::Take(_) => true,
        }
    }
}

impl Movement<'_> {
    /// Returns whether the movement takes values at places that rise by one step along each axis.
    pub fn keeps_strides(self) -> bool
        ensures { result ≡ keeps_strides (movement_at self.entry) }
    {
        match self {
            Movement::Broadcast(_)
            | Movement::Slice(_, _)
            | Movement::Shuffle(_)
            | Movement::Chip(_, _)
            | Movement::Stride(_) => true,
            Movement::Reshape(_) | Movement::Reverse(_) => false,
        }
    }
}

impl Expr {
    /// Returns whether the last operation needs its operands as tensors.
    pub fn combines(&self) -> bool
        ensures { result ≡ is_combining (term_of self.now) }
    {
        match self.node() {
            Node::Input(_) | Node::Ternary(_, _, _, _) => false,
            Node::Unary(operation, _) => operation.combines(),
            Node::Binary(operation, _, _) => operation.combines(),
        }
    }
}
