//! The dims of a request's inputs and bindings, before any binding is evaluated. `work.rt` counts
//! steps by them.

ghost use Rattle.std.specs.Prelude.{◌≡◌, ◌<◌, ◌≤◌, ◌++◌, length, map, take, Ok};
ghost use Rattle.expr_reader.specs.Contents.{input_of};
ghost use Rattle.expr_reader.specs.Legal.{widest};
ghost use Rattle.expr_reader.specs.Result.{dims_of};
ghost use Rattle.expr_reader.specs.Tree.{term_of};
ghost use Rattle.tensor_terms.specs.Result.{operand_dims};

use expr_reader::{Binding, Dims, Expr, Inputs, Request};
use tensor_ops::{ExprFault, WIDEST};

/// Inputs, followed by the tensors of bindings. Only their dims are known.
#[derive(Drop)]
pub(crate) struct Known<'a, 'i> {
    pub(crate) inputs: &'a Inputs<'i>,
    pub(crate) bindings: &'a [Binding],
}

impl<'a, 'i> Known<'a, 'i> {
    ghost use Rattle.tensor_runner.specs.private.Known.{dims_of_all, dims_known, tensors_known};

    /// Returns the inputs of a request and its first `done` bindings.
    pub(crate) fn of(request: &'a Request<'i>, done: usize) -> Known<'a, 'i>
        requires { done ≤ length request.now.bindings.items }
        ensures { dims_known result ≡ dims_of_all request.now.inputs.tensors
            ++ map (λ b. b.dims) (take done request.now.bindings.items) }
    {
        Known {
            inputs: &request.inputs,
            bindings: &request.bindings[..done],
        }
    }

    /// Returns the dims of tensor `number`. The bindings are numbered after the inputs.
    pub(crate) fn dims(&self, number: u32) -> Dims
        requires { number < length (tensors_known self.now) }
        ensures { result ≡ (input_of (tensors_known self.now) number).dims }
    {
        let count = self.inputs.len();
        if number < count {
            return self.inputs.get(number).dims().copied();
        }
        self.bindings[(number - count) as usize].dims.copied()
    }

    /// Returns the dims of an operation over these tensors, given the dims of its operands.
    pub(crate) fn dims_over(&self, expr: &Expr, operands: &[Dims]) -> Result<Dims, ExprFault>
        requires some { 0 < length operands.now }
        requires operands { operand_dims widest (term_of expr.now) (tensors_known self.now)
            ≡ map Ok operands.now }
        ensures { result ≡ dims_of widest (term_of expr.now) (tensors_known self.now) }
    {
        expr.dims_by(WIDEST, operands)
    }
}
