//! Steps that are evaluated by ranges of their places.

ghost use Rattle.std.specs.Prelude.{◌≡◌, ◌<◌, ◌++◌, length, IfOk, IfErr, IsTrue, Ok};
ghost use Rattle.tensor_ops.specs.Legal.{widest};
ghost use Rattle.tensor_ops.specs.Result.{dims_of};
ghost use Rattle.tensor_ops.specs.Term.{has_inputs};
ghost use Rattle.tensor_ops.specs.Tree.{term_of};
ghost use Rattle.tensor_ops.specs.Value.{tensor_of};

use crate::running::step_kernel::StepKernel;
use crate::running::workers::Workers;
use parallel_for::ForFault;
use std::sync::Wait;
use std::thread::Threads;
use tensor_ops::{Dims, Expr, Inputs, Tensor};

/// Returns the tensor of an expression with the given dims, evaluated `leaf` places at a time.
pub(crate) fn of_ranges<RT: Threads + Wait + Sync>(
    workers: &Workers<'_, RT>,
    leaf: u64,
    expr: &Expr,
    dims: &Dims,
    inputs: &Inputs,
    earlier: &[Tensor],
) -> Result<Tensor<'static>, ForFault>
    requires inputs { IsTrue (has_inputs (term_of expr.now)
        (length (inputs.now.tensors ++ earlier.now))) }
    requires dims { dims_of widest (term_of expr.now) (inputs.now.tensors ++ earlier.now)
        ≡ Ok dims.now }
    requires some { 0 < leaf }
    ensures tensor { IfOk result (λ t.
        t ≡ tensor_of (term_of expr.now) (inputs.now.tensors ++ earlier.now)) }
    ensures faults { IfErr result (λ fault. fault ≡ ForFault.NoMemory) }
{
    let kernel = StepKernel::over(workers.alloc, expr, inputs, earlier)?;
    let size = dims.size();
    let values = workers.items(&kernel, size, leaf)?;
    Ok(Tensor::new(dims.copied(), values))
}
