//! Reasons why a movement, a pad or a reshape does not fit its operand. The checks are made in the
//! order of `tensor_terms`, so the reason is the one of the fault that was found.

use crate::sizes::{no_axis, past_words, places, sizes_in, why_axes, why_illegal};
use serde_json::Value;
use std::alloc::{AllocError, Global};

/// Says that an argument has too few or too many items, if it has not one for each dimension.
fn why_count(
    alloc: Global,
    name: &str,
    count: usize,
    dims: &[u64],
) -> Result<Option<String>, AllocError> {
    if count == dims.len() {
        return Ok(None);
    }
    let reason = format!(in alloc;
        "{name} must have one item for each dimension of {dims:?}, {} in all; it has {count}",
        dims.len()
    )?;
    Ok(Some(reason))
}

/// Says that a list argument has too few or too many items, if it has not one for each dimension.
pub(crate) fn why_lengths(
    alloc: Global,
    name: &str,
    argument: &Value,
    dims: &[u64],
) -> Result<Option<String>, AllocError> {
    match argument.as_array() {
        Some(list) => why_count(alloc, name, list.len(), dims),
        None => Ok(None),
    }
}

/// Says which item of an argument is 0, if there is one.
fn why_zero(alloc: Global, name: &str, sizes: &[u64]) -> Result<Option<String>, AllocError> {
    match sizes.iter().position(|size| *size == 0) {
        Some(index) => {
            let reason = format!(in alloc;
                "each item of {name} must be at least 1; the one at index {index} is 0"
            )?;
            Ok(Some(reason))
        }
        None => Ok(None),
    }
}

/// Says why the counts of a broadcast do not fit these dims.
pub(crate) fn why_broadcast(
    alloc: Global,
    version: u64,
    counts: &[u64],
    dims: &[u64],
) -> Result<Option<String>, AllocError> {
    if let Some(reason) = why_count(alloc, "COUNTS", counts.len(), dims)? {
        return Ok(Some(reason));
    }
    if let Some(reason) = why_zero(alloc, "COUNTS", counts)? {
        return Ok(Some(reason));
    }
    let mut sizes = Vec::new(alloc);
    for (axis, (count, size)) in counts.iter().zip(dims.iter()).enumerate() {
        let Some(repeated) = count.checked_mul(*size) else {
            return past_words(alloc, version, axis);
        };
        sizes.push(repeated)?;
    }
    why_illegal(alloc, version, sizes.as_slice())
}

/// Says why a tensor with these dims can't be reshaped to these sizes.
pub(crate) fn why_reshape(
    alloc: Global,
    version: u64,
    sizes: &[u64],
    dims: &[u64],
) -> Result<Option<String>, AllocError> {
    if let Some(reason) = why_illegal(alloc, version, sizes)? {
        return Ok(Some(reason));
    }
    let reason = format!(in alloc;
        "SIZES {sizes:?} have {} places; the dims {dims:?} of the operand have {}",
        places(sizes),
        places(dims)
    )?;
    Ok(Some(reason))
}

/// Says why an order is not a permutation of the axes of these dims.
pub(crate) fn why_order(
    alloc: Global,
    order: &[u64],
    dims: &[u64],
) -> Result<Option<String>, AllocError> {
    match why_count(alloc, "ORDER", order.len(), dims)? {
        Some(reason) => Ok(Some(reason)),
        None => why_axes(alloc, "ORDER", order, dims),
    }
}

/// Says why the steps of a stride do not fit these dims.
pub(crate) fn why_steps(
    alloc: Global,
    steps: &[u64],
    dims: &[u64],
) -> Result<Option<String>, AllocError> {
    match why_count(alloc, "STEPS", steps.len(), dims)? {
        Some(reason) => Ok(Some(reason)),
        None => why_zero(alloc, "STEPS", steps),
    }
}

/// Says why the offset and the axis of a chip do not fit these dims.
pub(crate) fn why_chip(
    alloc: Global,
    arguments: &[Value],
    dims: &[u64],
) -> Result<Option<String>, AllocError> {
    let [offset, axis] = arguments else {
        return Ok(None);
    };
    let (Some(offset), Some(axis)) = (offset.as_u64(), axis.as_u64()) else {
        return Ok(None);
    };
    let Some(size) = dims.get(axis as usize) else {
        return no_axis(alloc, axis, dims);
    };
    let reason = format!(in alloc;
        "OFFSET must be below the dimension {size} of AXIS {axis}; it is {offset}"
    )?;
    Ok(Some(reason))
}

/// Says why the offsets and extents of a slice do not fit these dims.
pub(crate) fn why_slice(
    alloc: Global,
    arguments: &[Value],
    dims: &[u64],
) -> Result<Option<String>, AllocError> {
    let [offsets, extents] = arguments else {
        return Ok(None);
    };
    let (Some(offsets), Some(extents)) = (sizes_in(alloc, offsets)?, sizes_in(alloc, extents)?)
    else {
        return Ok(None);
    };
    if let Some(reason) = why_count(alloc, "OFFSETS", offsets.len(), dims)? {
        return Ok(Some(reason));
    }
    if let Some(reason) = why_count(alloc, "EXTENTS", extents.len(), dims)? {
        return Ok(Some(reason));
    }
    why_outside(alloc, offsets.as_slice(), extents.as_slice(), dims)
}

/// Says along which axis an offset and an extent first go past the dimension, if they do.
fn why_outside(
    alloc: Global,
    offsets: &[u64],
    extents: &[u64],
    dims: &[u64],
) -> Result<Option<String>, AllocError> {
    for (axis, ((offset, extent), size)) in offsets
        .iter()
        .zip(extents.iter())
        .zip(dims.iter())
        .enumerate()
    {
        if offset.saturating_add(*extent) > *size {
            let reason = format!(in alloc;
                "offset {offset} plus extent {extent} is more than the dimension {size} of axis {axis}"
            )?;
            return Ok(Some(reason));
        }
    }
    Ok(None)
}

/// Says why the pairs of a pad do not fit these dims.
pub(crate) fn why_pad(
    alloc: Global,
    version: u64,
    argument: &Value,
    dims: &[u64],
) -> Result<Option<String>, AllocError> {
    let Some(list) = argument.as_array() else {
        return Ok(None);
    };
    if let Some(reason) = why_count(alloc, "PAIRS", list.len(), dims)? {
        return Ok(Some(reason));
    }
    let mut sizes = Vec::new(alloc);
    for (axis, (pair, size)) in list.iter().zip(dims.iter()).enumerate() {
        let Some(pair) = sizes_in(alloc, pair)? else {
            return Ok(None);
        };
        let Some(padded) = sum_of(*size, pair.as_slice()) else {
            return past_words(alloc, version, axis);
        };
        sizes.push(padded)?;
    }
    why_illegal(alloc, version, sizes.as_slice())
}

/// Adds numbers to a size. `None` if the sum does not fit in 64 bits.
fn sum_of(size: u64, more: &[u64]) -> Option<u64> {
    let mut sum = size;
    for each in more {
        sum = sum.checked_add(*each)?;
    }
    Some(sum)
}
