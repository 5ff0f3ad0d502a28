//! A tensor program without JSON: the squared distance of each row of a matrix from the same row of
//! another matrix. `tensor_ops/CALLING.md` quotes it.
ghost use Rattle.std.specs.Prelude.{◌≡◌, Err, IfOk, IfErr, length};
ghost use Rattle.tensor_ops.specs.Result.{dims_of};
ghost use Rattle.tensor_ops.specs.Tree.{term_of};
ghost use Rattle.tensor_ops.specs.Value.{tensor_of};
ghost use Rattle.uses.specs.Programs.{squared_distances};

use std::alloc::{AllocError, Global};
use tensor_ops::{Expr, ExprFault, Inputs, Tensor, eval_plain};

/// Returns the program: the squares of the differences of two inputs, added up along axis 1.
fn program(alloc: Global) -> Result<Expr, AllocError>
    ensures { IfOk result (λ expr. term_of expr ≡ squared_distances) }
{
    let left = Box::new(alloc, Expr::Input(0))?;
    let right = Box::new(alloc, Expr::Input(1))?;
    let difference = Box::new(alloc, Expr::Sub(left, right))?;
    let square = Box::new(alloc, Expr::Square(difference))?;
    Ok(Expr::Sum(square, vec![in alloc; 1]?))
}

/// Returns the squared distance of each row, or the fault of the two inputs.
pub fn row_distances(
    alloc: Global,
    inputs: &Inputs,
) -> Result<Result<Tensor<'static>, ExprFault>, AllocError>
    requires two { length inputs.now.tensors ≡ 2 }
    ensures tensor { IfOk result (λ answer.
        IfOk answer (λ tensor. tensor ≡ tensor_of squared_distances inputs.now.tensors)) }
    ensures fault { IfOk result (λ answer.
        IfErr answer (λ fault.
        dims_of inputs.now.bounds squared_distances inputs.now.tensors ≡ Err fault)) }
{
    let program = program(alloc)?;
    if let Err(fault) = program.dims(inputs) {
        return Ok(Err(fault));
    }
    Ok(Ok(eval_plain(alloc, &program, inputs)?))
}
