//! The tensors that an expression names: the inputs of a request, and tensors computed before. The
//! evaluators of tensor_ops read tensors through this view; a change touches `specs/Tensors`.

ghost use Rattle.std.specs.Prelude.{◌≡◌, ◌<◌, ◌++◌, length};
ghost use Rattle.tensor_terms.specs.Contents.{input_of};

use crate::tensor::Tensor;
use crate::tensor::inputs::Inputs;

/// Tensors by their numbers: the inputs come first, and the other tensors follow.
#[derive(Clone, Copy)]
pub struct Tensors<'a> {
    /// The tensors with the first numbers.
    inputs: &'a Inputs<'a>,
    /// The tensors with the numbers after the inputs.
    others: &'a [Tensor<'a>],
}

impl<'a> Tensors<'a> {
    ghost use Rattle.tensor_terms.specs.Tensors.{tensors_in};

    /// Returns the view of inputs followed by other tensors.
    pub fn of(inputs: &'a Inputs<'a>, others: &'a [Tensor<'a>]) -> Tensors<'a>
        ensures { tensors_in result ≡ inputs.now.tensors ++ others.now }
    {
        Tensors { inputs, others }
    }

    /// Returns the tensor with this number.
    pub fn get(self, number: u32) -> &'a Tensor<'a>
        requires { number < length (tensors_in self) }
        ensures { result.now ≡ input_of (tensors_in self.entry) number }
    {
        let count = self.inputs.len();
        if number < count {
            return self.inputs.get(number);
        }
        &self.others[(number - count) as usize]
    }
}
