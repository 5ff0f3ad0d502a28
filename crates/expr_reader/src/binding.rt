//! A binding: an expression that is evaluated once, and whose tensor later expressions use by
//! number. Its facts are in `specs/Bindings`.

use tensor_ops::{Dims, Expr};

/// An expression whose tensor has a name, and its dims. Tensors are numbered: first the inputs,
/// then the bindings in order. The expression of a binding may use the inputs and the bindings
/// before it.
#[derive(Drop)]
pub struct Binding {
    /// The expression that is bound.
    pub expr: Expr,
    /// The dims of the expression's tensor.
    pub dims: Dims,
}
