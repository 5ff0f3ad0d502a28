//! Checks of sizes that several operations share, with their reasons: legal dims, and lists of
//! axes. The highest ranks and the products of version 3 are written here again: a new one of
//! `expr_reader` or `tensor_terms` changes them too.

use serde_json::Value;
use std::alloc::{AllocError, Global};
use tensor_ops::{MAX_ELEMENTS, TEXT_ELEMENTS, TEXT_PRODUCTS};

/// The most products in version 3.
const MAX_PRODUCTS: u64 = 1_099_511_627_776;

/// Returns the highest rank that a version allows.
fn highest_rank(version: u64) -> usize {
    if version == 1 { 6 } else { 8 }
}

/// Returns the largest product of the dims of a tensor in a version.
fn most_elements(version: u64) -> u64 {
    if version == 3 {
        MAX_ELEMENTS
    } else {
        TEXT_ELEMENTS
    }
}

/// Returns the most products that a contraction or a convolution may sum in a version.
pub(crate) fn most_products(version: u64) -> u64 {
    if version == 3 {
        MAX_PRODUCTS
    } else {
        TEXT_PRODUCTS
    }
}

/// Returns the product of sizes, with a 0 counted as 1, or `u64::MAX` if it is larger.
pub(crate) fn product(sizes: &[u64]) -> u64 {
    let mut product = 1u64;
    for size in sizes {
        product = product.saturating_mul((*size).max(1));
    }
    product
}

/// Returns the product of sizes, or `u64::MAX` if it is larger.
pub(crate) fn places(sizes: &[u64]) -> u64 {
    let mut product = 1u64;
    for size in sizes {
        product = product.saturating_mul(*size);
    }
    product
}

/// Says why sizes are not legal dims in a version, if they are not.
pub(crate) fn why_illegal(
    alloc: Global,
    version: u64,
    sizes: &[u64],
) -> Result<Option<String>, AllocError> {
    let most = highest_rank(version);
    if sizes.len() > most {
        let reason = format!(in alloc;
            "the rank of these dims is {}; version {version} allows at most {most}",
            sizes.len()
        )?;
        return Ok(Some(reason));
    }
    let (product, elements) = (product(sizes), most_elements(version));
    if product > elements {
        let zero = if sizes.contains(&0) {
            " (a 0 counts as 1)"
        } else {
            ""
        };
        let most = if product == u64::MAX { "at least " } else { "" };
        let reason = format!(in alloc;
            "the product of the dims {sizes:?}{zero} is {most}{product}; it may be at most {elements}"
        )?;
        return Ok(Some(reason));
    }
    Ok(None)
}

/// Returns the sizes of a list. `None` if the value is not a list of whole numbers from 0 up.
pub(crate) fn sizes_in(alloc: Global, value: &Value) -> Result<Option<Vec<u64>>, AllocError> {
    let Some(list) = value.as_array() else {
        return Ok(None);
    };
    let mut sizes = Vec::new(alloc);
    for size in list {
        match size.as_u64() {
            Some(number) => sizes.push(number)?,
            None => return Ok(None),
        }
    }
    Ok(Some(sizes))
}

/// Says that a result has more places along an axis than fit in 64 bits.
pub(crate) fn past_words(
    alloc: Global,
    version: u64,
    axis: usize,
) -> Result<Option<String>, AllocError> {
    let elements = most_elements(version);
    let rule = format!(in alloc; "the product of its dims may be at most {elements}")?;
    let reason = format!(in alloc;
        "along axis {axis} the result has more than {} places; {rule}",
        u64::MAX
    )?;
    Ok(Some(reason))
}

/// Says that these dims have no such axis.
pub(crate) fn no_axis(
    alloc: Global,
    axis: u64,
    dims: &[u64],
) -> Result<Option<String>, AllocError> {
    let reason = format!(in alloc; "AXIS {axis} is not an axis of the dims {dims:?}")?;
    Ok(Some(reason))
}

/// Says which of these axes the dims do not have, or which is there twice, if there is one.
pub(crate) fn why_axes(
    alloc: Global,
    name: &str,
    axes: &[u64],
    dims: &[u64],
) -> Result<Option<String>, AllocError> {
    for (index, axis) in axes.iter().enumerate() {
        if *axis >= dims.len() as u64 {
            let reason = format!(in alloc;
                "{name} must be axes of the dims {dims:?}; the one at index {index} is {axis}"
            )?;
            return Ok(Some(reason));
        }
        if axes[..index].contains(axis) {
            let reason = format!(in alloc;
                "{name} must not repeat an axis; {axis} is there twice"
            )?;
            return Ok(Some(reason));
        }
    }
    Ok(None)
}
