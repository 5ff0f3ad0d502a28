//! Reasons why operands do not fit an operation along one axis. The checks are made in the order of
//! `tensor_terms`, so the reason is the one of the fault that was found.

use crate::pairs::Operands;
use crate::sizes::{no_axis, why_illegal};
use serde_json::Value;
use std::alloc::{AllocError, Global};

/// Says that the dims of an operand do not have an axis.
pub(crate) fn why_along(
    alloc: Global,
    axis: &Value,
    dims: &[u64],
) -> Result<Option<String>, AllocError> {
    match axis.as_u64() {
        Some(axis) => no_axis(alloc, axis, dims),
        None => Ok(None),
    }
}

/// Says why values can't be taken along an axis at the indices of a second operand.
pub(crate) fn why_take(
    alloc: Global,
    version: u64,
    axis: &Value,
    operands: Operands<'_>,
) -> Result<Option<String>, AllocError> {
    let Operands {
        first: dims,
        second: indices,
    } = operands;
    let Some(axis) = axis.as_u64() else {
        return Ok(None);
    };
    if axis >= dims.len() as u64 {
        return no_axis(alloc, axis, dims);
    }
    let mut sizes = Vec::new(alloc);
    for (index, size) in dims.iter().enumerate() {
        if index as u64 == axis {
            sizes.extend_from_slice(indices)?;
        } else {
            sizes.push(*size)?;
        }
    }
    why_illegal(alloc, version, sizes.as_slice())
}
