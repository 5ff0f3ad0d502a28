//! Reasons for the fault BadTensor. The checks are made in the order of `expr_reader`
//! (`specs/Tensors` and `specs/Frame` there).

use crate::found::found;
use crate::sizes::{places, sizes_in, why_illegal};
use crate::source::Source;
use serde_json::Value;
use std::alloc::{AllocError, Global};

/// Says why the value of the field `inputs` is not an object, or that more values follow the header
/// than its tensors have places.
pub(crate) fn why_inputs(
    alloc: Global,
    source: Source<'_, '_>,
    value: &Value,
) -> Result<String, AllocError> {
    let Some(members) = value.as_object() else {
        let what = found(alloc, value)?;
        return format!(in alloc; "inputs must be an object of tensors; this is {what}");
    };
    let mut places = 0u64;
    for (_, tensor) in members {
        places = places.saturating_add(places_in(alloc, tensor)?);
    }
    let count = source.count();
    format!(in alloc;
        "the number of places of all tensors is {places}; the number of values is {count}"
    )
}

/// Says why a member of `inputs` is not a tensor of a header, or that too few values follow it.
pub(crate) fn why_header_tensor(
    alloc: Global,
    source: Source<'_, '_>,
    name: &str,
    value: &Value,
) -> Result<String, AllocError> {
    let Some(members) = value.as_object() else {
        let what = found(alloc, value)?;
        return format!(in alloc; "a tensor of a header is an object of dims alone; this is {what}");
    };
    let Some(dims) = value.get("dims") else {
        return format!(in alloc; "the tensor has no dims");
    };
    if members.len() != 1 {
        return format!(in alloc;
            "a tensor of a header has the member dims only; this one has {} members",
            members.len()
        );
    }
    match why_dims(alloc, source.version(), dims)? {
        Some(reason) => Ok(reason),
        None => why_few(alloc, source, name),
    }
}

/// Says that fewer values follow a header than the tensors up to this one have places.
fn why_few(alloc: Global, source: Source<'_, '_>, name: &str) -> Result<String, AllocError> {
    let mut places = 0u64;
    if let Some(members) = source.root().get("inputs").and_then(Value::as_object) {
        for (other, tensor) in members {
            if other.as_bytes() <= name.as_bytes() {
                places = places.saturating_add(places_in(alloc, tensor)?);
            }
        }
    }
    let count = source.count();
    format!(in alloc;
        "the number of places up to this tensor is {places}; the number of values is {count}"
    )
}

/// Returns how many places a tensor has, if it is one.
fn places_in(alloc: Global, tensor: &Value) -> Result<u64, AllocError> {
    let Some(dims) = tensor.get("dims") else {
        return Ok(0);
    };
    match sizes_in(alloc, dims)? {
        Some(sizes) => Ok(places(sizes.as_slice())),
        None => Ok(0),
    }
}

/// Says why a value is not a tensor of a text in this version.
pub(crate) fn why_tensor(alloc: Global, version: u64, value: &Value) -> Result<String, AllocError> {
    let Some(members) = value.as_object() else {
        let what = found(alloc, value)?;
        return format!(in alloc; "a tensor is an object of dims and data; this is {what}");
    };
    let Some(dims) = value.get("dims") else {
        return format!(in alloc; "the tensor has no dims");
    };
    let Some(data) = value.get("data") else {
        return format!(in alloc; "the tensor has no data");
    };
    if members.len() != 2 {
        return format!(in alloc;
            "a tensor has the members dims and data only; this one has {} members",
            members.len()
        );
    }
    match why_dims(alloc, version, dims)? {
        Some(reason) => Ok(reason),
        None => why_data(alloc, dims, data),
    }
}

/// Says why a value is not the dims of a tensor in this version, if it is not.
fn why_dims(alloc: Global, version: u64, value: &Value) -> Result<Option<String>, AllocError> {
    let Some(list) = value.as_array() else {
        let what = found(alloc, value)?;
        let reason = format!(in alloc;
            "dims must be a list of whole numbers of at least 0; this is {what}"
        )?;
        return Ok(Some(reason));
    };
    let mut sizes = Vec::new(alloc);
    for size in list {
        let Some(number) = size.as_u64() else {
            let what = found(alloc, size)?;
            let reason = format!(in alloc;
                "dims must be whole numbers of at least 0; one of these is {what}"
            )?;
            return Ok(Some(reason));
        };
        sizes.push(number)?;
    }
    why_illegal(alloc, version, sizes.as_slice())
}

/// Says why a value is not the data of a tensor with these dims, which are legal.
fn why_data(alloc: Global, dims: &Value, value: &Value) -> Result<String, AllocError> {
    let Some(list) = value.as_array() else {
        let what = found(alloc, value)?;
        return format!(in alloc; "data must be a list of whole numbers; this is {what}");
    };
    for (index, number) in list.iter().enumerate() {
        if number.as_i64().is_none() {
            let what = found(alloc, number)?;
            return format!(in alloc;
                "data must be whole numbers from {} to {}; the one at index {index} is {what}",
                i64::MIN,
                i64::MAX
            );
        }
    }
    let dims = dims.to_string(alloc)?;
    format!(in alloc;
        "data must have one number for each place of the dims {dims}; it has {}",
        list.len()
    )
}
