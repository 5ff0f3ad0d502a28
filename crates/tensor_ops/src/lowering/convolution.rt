//! Convolutions of lowered operands. `evaluator::root` evaluates one by ranges; below the root it
//! is evaluated here.

ghost use Rattle.std.specs.Prelude.{◌≡◌, Ok, IsOk, IfOk};
ghost use Rattle.tensor_shape.specs.Index.{size_of};
ghost use Rattle.tensor_shape.specs.Legal.{widest};
ghost use Rattle.tensor_kernels.specs.Contracting.{contraction_count, contraction_value};
ghost use Rattle.tensor_terms.specs.Convolution.{convolved, convolved_dims};
ghost use Rattle.tensor_ops.specs.private.Meaning.{count_of, IsSound};
ghost use Rattle.tensor_ops.specs.private.Lowering.{Gives, HasValues, meaning_at};

use crate::lowered::Lowered;
use crate::lowering::part::Part;
use crate::operands::rows::one_row;
use crate::operands::windows::windows_under_kernel;
use std::alloc::{AllocError, Global};
use tensor_kernels::Contraction;
use tensor_shape::{Dims, WIDEST};
use tensor_terms::convolved_dims;

/// Returns a convolution along axes, made ready, and its result dims. The second operand is the
/// kernel.
pub(crate) fn convolution_of<'a>(
    alloc: Global,
    axes: &[u64],
    operand: Part<'a>,
    kernel: Part<'a>,
) -> Result<(Contraction<'a>, Dims), AllocError>
    requires operand { IsSound operand.lowered }
    requires kernel { IsSound kernel.lowered }
    requires count_operand { count_of operand.lowered ≡ size_of operand.dims }
    requires count_kernel { count_of kernel.lowered ≡ size_of kernel.dims }
    requires dims { IsOk (convolved_dims widest axes.now operand.dims kernel.dims) }
    ensures dims { IfOk result (λ r.
        convolved_dims widest axes.now operand.entry.dims kernel.entry.dims ≡ Ok r.1) }
    ensures values { IfOk result (λ r. HasValues (contraction_count r.0) (contraction_value r.0)
        r.1 (convolved axes.now kernel.entry.dims
        (meaning_at operand.entry.lowered operand.entry.dims)
        (meaning_at kernel.entry.lowered kernel.entry.dims))) }
{
    let dims = convolved_dims(WIDEST, axes, &operand.dims, &kernel.dims).unwrap();
    let values = operand.lowered.into_values(alloc, &operand.dims)?;
    let factors = kernel.lowered.into_values(alloc, &kernel.dims)?;
    let runs = windows_under_kernel(alloc, axes, &operand.dims, values, &kernel.dims, &dims)?;
    let row = one_row(alloc, &kernel.dims, factors)?;
    Ok((Contraction::of_runs(runs, row), dims))
}

/// Returns a convolution, evaluated.
pub(crate) fn lower_convolution<'a>(
    alloc: Global,
    axes: &[u64],
    operand: Part<'a>,
    kernel: Part<'a>,
) -> Result<Part<'a>, AllocError>
    requires operand { IsSound operand.lowered }
    requires kernel { IsSound kernel.lowered }
    requires count_operand { count_of operand.lowered ≡ size_of operand.dims }
    requires count_kernel { count_of kernel.lowered ≡ size_of kernel.dims }
    requires dims { IsOk (convolved_dims widest axes.now operand.dims kernel.dims) }
    ensures dims { IfOk result (λ r.
        convolved_dims widest axes.now operand.entry.dims kernel.entry.dims ≡ Ok r.dims) }
    ensures lowered { IfOk result (λ r. Gives r.lowered r.dims
        (convolved axes.now kernel.entry.dims
        (meaning_at operand.entry.lowered operand.entry.dims)
        (meaning_at kernel.entry.lowered kernel.entry.dims))) }
{
    let (convolution, dims) = convolution_of(alloc, axes, operand, kernel)?;
    let count = dims.size() as usize;
    Ok(Part {
        lowered: Lowered::Stored(convolution.values(alloc, 0, count)?),
        dims,
        pieces: 0,
    })
}
