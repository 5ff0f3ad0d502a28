//! Reasons why two operands do not fit a concatenation, a contraction or a convolution. The checks
//! are made in the order of `tensor_terms`, so the reason is the one of the fault that was found.

use crate::sizes::{most_products, no_axis, places, sizes_in, why_axes, why_illegal};
use serde_json::Value;
use std::alloc::{AllocError, Global};

/// The dims of the operands of an operation on two tensors.
#[derive(Clone, Copy)]
pub(crate) struct Operands<'d> {
    pub(crate) first: &'d [u64],
    pub(crate) second: &'d [u64],
}

/// Says why two operands can't be concatenated along an axis.
pub(crate) fn why_concat(
    alloc: Global,
    version: u64,
    axis: &Value,
    operands: Operands<'_>,
) -> Result<Option<String>, AllocError> {
    let Operands { first, second } = operands;
    let Some(axis) = axis.as_u64() else {
        return Ok(None);
    };
    if first.len() != second.len() {
        let reason = format!(in alloc;
            "both operands must have the same rank; their dims are {first:?} and {second:?}"
        )?;
        return Ok(Some(reason));
    }
    if axis >= first.len() as u64 {
        return no_axis(alloc, axis, first);
    }
    let axis = axis as usize;
    if let Some(other) = differs_at(axis, first, second) {
        let reason = format!(in alloc;
            "the dims {first:?} and {second:?} may differ only at axis {axis}; they differ at axis {other}"
        )?;
        return Ok(Some(reason));
    }
    let joined = joined(alloc, axis, first, second)?;
    why_illegal(alloc, version, joined.as_slice())
}

/// Returns the first axis, other than `axis`, at which the dims differ.
fn differs_at(axis: usize, first: &[u64], second: &[u64]) -> Option<usize> {
    for (index, (size, other)) in first.iter().zip(second.iter()).enumerate() {
        if index != axis && size != other {
            return Some(index);
        }
    }
    None
}

/// Returns the dims of two operands concatenated along an axis.
fn joined(
    alloc: Global,
    axis: usize,
    first: &[u64],
    second: &[u64],
) -> Result<Vec<u64>, AllocError> {
    let mut sizes = Vec::new(alloc);
    for (index, (size, more)) in first.iter().zip(second.iter()).enumerate() {
        let on_top = if index == axis { *more } else { 0 };
        sizes.push(size.saturating_add(on_top))?;
    }
    Ok(sizes)
}

/// Says why two operands can't be contracted over these pairs of axes.
pub(crate) fn why_contract(
    alloc: Global,
    version: u64,
    argument: &Value,
    operands: Operands<'_>,
) -> Result<Option<String>, AllocError> {
    let Operands { first, second } = operands;
    let Some(pairs) = pairs_in(alloc, argument)? else {
        return Ok(None);
    };
    let (firsts, seconds) = (pairs.0.as_slice(), pairs.1.as_slice());
    let reason = why_axes(alloc, "the first numbers of PAIRS", firsts, first)?;
    if reason.is_some() {
        return Ok(reason);
    }
    let reason = why_axes(alloc, "the second numbers of PAIRS", seconds, second)?;
    if reason.is_some() {
        return Ok(reason);
    }
    for (left, right) in firsts.iter().zip(seconds.iter()) {
        let (size, other) = (size_at(*left, first), size_at(*right, second));
        if size != other {
            let reason = format!(in alloc;
                "axis {left} of the first operand is {size} long; axis {right} of the second is {other} long"
            )?;
            return Ok(Some(reason));
        }
    }
    let mut outer = Vec::new(alloc);
    push_others(firsts, first, &mut outer)?;
    push_others(seconds, second, &mut outer)?;
    let reason = why_illegal(alloc, version, outer.as_slice())?;
    if reason.is_some() {
        return Ok(reason);
    }
    let summed = sizes_at(alloc, firsts, first)?;
    why_many(alloc, version, outer.as_slice(), summed.as_slice())
}

/// Returns the size of an axis, or 0 if the dims do not have it.
fn size_at(axis: u64, dims: &[u64]) -> u64 {
    dims.get(axis as usize).copied().unwrap_or(0)
}

/// Returns the size of each of these axes.
fn sizes_at(alloc: Global, axes: &[u64], dims: &[u64]) -> Result<Vec<u64>, AllocError> {
    let mut sizes = Vec::new(alloc);
    for axis in axes {
        sizes.push(size_at(*axis, dims))?;
    }
    Ok(sizes)
}

/// Returns the first number of each pair, and the second number of each.
fn pairs_in(alloc: Global, argument: &Value) -> Result<Option<(Vec<u64>, Vec<u64>)>, AllocError> {
    let Some(list) = argument.as_array() else {
        return Ok(None);
    };
    let mut firsts = Vec::new(alloc);
    let mut seconds = Vec::new(alloc);
    for pair in list {
        let (Some(first), Some(second)) = (
            pair.get(0usize).and_then(Value::as_u64),
            pair.get(1usize).and_then(Value::as_u64),
        ) else {
            return Ok(None);
        };
        firsts.push(first)?;
        seconds.push(second)?;
    }
    Ok(Some((firsts, seconds)))
}

/// Appends the dims whose axis is not one of `axes`.
fn push_others(axes: &[u64], dims: &[u64], others: &mut Vec<u64>) -> Result<(), AllocError> {
    for (axis, size) in dims.iter().enumerate() {
        if !axes.contains(&(axis as u64)) {
            others.push(*size)?;
        }
    }
    Ok(())
}

/// Says why a kernel does not fit these axes of an operand.
pub(crate) fn why_convolve(
    alloc: Global,
    version: u64,
    argument: &Value,
    operands: Operands<'_>,
) -> Result<Option<String>, AllocError> {
    let Operands {
        first: dims,
        second: kernel,
    } = operands;
    let Some(axes) = sizes_in(alloc, argument)? else {
        return Ok(None);
    };
    let axes = axes.as_slice();
    let reason = why_axes(alloc, "AXES", axes, dims)?;
    if reason.is_some() {
        return Ok(reason);
    }
    if kernel.len() != axes.len() {
        let reason = format!(in alloc;
            "the kernel must have one dimension for each of AXES, {} in all; its dims are {kernel:?}",
            axes.len()
        )?;
        return Ok(Some(reason));
    }
    let mut slid = Vec::from_slice(alloc, dims)?;
    for (axis, size) in axes.iter().zip(kernel.iter()) {
        let along = size_at(*axis, dims);
        if *size == 0 || *size > along {
            let reason = format!(in alloc;
                "along axis {axis} the kernel has the length {size}; the operand has the length {along}"
            )?;
            return Ok(Some(reason));
        }
        if let Some(place) = slid.get_mut(*axis as usize) {
            *place = (along - *size).saturating_add(1);
        }
    }
    why_many(alloc, version, slid.as_slice(), kernel)
}

/// Says that a contraction or a convolution has too many products, if it has. Its result has these
/// dims, and each value there is a sum over the index lists of `summed`.
fn why_many(
    alloc: Global,
    version: u64,
    dims: &[u64],
    summed: &[u64],
) -> Result<Option<String>, AllocError> {
    let (count, each, most) = (places(dims), places(summed), most_products(version));
    let products = count.saturating_mul(each);
    if products <= most {
        return Ok(None);
    }
    let reason = format!(in alloc;
        "{count} places of {each} products each are {products} products; at most {most} are allowed"
    )?;
    Ok(Some(reason))
}
