//! The result dims of contractions. A change touches `specs/Contraction`, which has the limits again.

ghost use Rattle.std.specs.Prelude.{◌≡◌, ◌≤◌, ◌++◌, ◌↔◌, length, IsSome, IfSome};
ghost use Rattle.tensor_shape.specs.Legal.{highest_rank, IsPossible};
ghost use Rattle.tensor_terms.specs.Contraction.{firsts, seconds, contracted_dims, products_within};
ghost use Rattle.tensor_terms.specs.Shaped.{legal_dims};

use crate::dims::movement_dims::{extend, legal_dims};
use crate::dims::reduction_dims::are_axes;
use crate::fault::ExprFault;
use crate::index::index_parts::{dims_at, other_dims};
use tensor_shape::{Bounds, Dims, PerAxis, TEXT_ELEMENTS};

/// The most products that a contraction or a convolution may sum, over all values of its result.
const MAX_PRODUCTS: u64 = 1_099_511_627_776;

/// The most products that a contraction or a convolution in a request text may sum.
pub const TEXT_PRODUCTS: u64 = 1_073_741_824;

/// Returns the result dims of a contraction over pairs of axes within `bounds`, or the fault of the
/// first check that fails.
pub fn contracted_dims(
    bounds: Bounds,
    pairs: &[(u64, u64)],
    first: &Dims,
    second: &Dims,
) -> Result<Dims, ExprFault>
    requires { IsPossible bounds }
    ensures { result ≡ contracted_dims bounds pairs.now first.now second.now }
{
    let Some((firsts, seconds)) = paired_axes(pairs, first) else {
        return Err(ExprFault::OutOfRange);
    };
    let firsts = firsts.as_slice();
    let seconds = seconds.as_slice();
    if !are_axes(first.rank() as u64, firsts) || !are_axes(second.rank() as u64, seconds) {
        return Err(ExprFault::OutOfRange);
    }
    let paired = dims_at(firsts, first);
    if paired.as_slice() != dims_at(seconds, second).as_slice() {
        return Err(ExprFault::ShapeMismatch);
    }
    let outer = joined_dims(
        bounds,
        &other_dims(firsts, first),
        &other_dims(seconds, second),
    )?;
    if outer.size() * paired.size() > products_within(bounds) {
        return Err(ExprFault::TooLarge);
    }
    Ok(outer)
}

/// Returns the most products that a contraction or a convolution may sum within `bounds`:
/// [`TEXT_PRODUCTS`] within those of a request text.
pub(crate) fn products_within(bounds: Bounds) -> u64
    ensures { result ≡ products_within bounds }
{
    if bounds.elements <= TEXT_ELEMENTS {
        TEXT_PRODUCTS
    } else {
        MAX_PRODUCTS
    }
}

/// Returns the first dims followed by the second dims, if they are within `bounds`.
fn joined_dims(bounds: Bounds, first: &Dims, second: &Dims) -> Result<Dims, ExprFault>
    requires { IsPossible bounds }
    ensures { result ≡ legal_dims bounds (first.now ++ second.now) }
{
    if first.rank() + second.rank() > bounds.rank {
        return Err(ExprFault::TooLarge);
    }
    let mut joined = PerAxis::new();
    extend(&mut joined, first.as_slice());
    extend(&mut joined, second.as_slice());
    legal_dims(bounds, joined.as_slice())
}

/// Returns the paired axes of the first operand and of the second; `None` if there are more pairs
/// than axes of the first operand.
pub fn paired_axes(pairs: &[(u64, u64)], first: &Dims) -> Option<(PerAxis, PerAxis)>
    ensures some { IsSome result ↔ (length pairs.now ≤ length first.now) }
    ensures first { IfSome result (λ axes. axes.0.items ≡ firsts pairs.now) }
    ensures second { IfSome result (λ axes. axes.1.items ≡ seconds pairs.now) }
{
    if pairs.len() <= first.rank() {
        Some((firsts(pairs), seconds(pairs)))
    } else {
        None
    }
}

/// Returns the paired axes of the first operand.
fn firsts(pairs: &[(u64, u64)]) -> PerAxis
    requires { length pairs.now ≤ highest_rank }
    ensures { result.items ≡ firsts pairs.now }
{
    let mut axes = PerAxis::new();
    for (axis, _) in pairs {
        axes.push(*axis);
    }
    axes
}

/// Returns the paired axes of the second operand.
fn seconds(pairs: &[(u64, u64)]) -> PerAxis
    requires { length pairs.now ≤ highest_rank }
    ensures { result.items ≡ seconds pairs.now }
{
    let mut axes = PerAxis::new();
    for (_, axis) in pairs {
        axes.push(*axis);
    }
    axes
}
