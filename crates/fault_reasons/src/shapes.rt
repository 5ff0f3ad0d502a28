//! Reasons for the faults ShapeMismatch, OutOfRange and TooLarge of a node. The operands are read
//! again for their dims; `movements.rt` and `pairs.rt` have the reasons of single operations.

use crate::along::{why_along, why_take};
use crate::lets::inside_lets;
use crate::movements::{
    why_broadcast, why_chip, why_lengths, why_order, why_pad, why_reshape, why_slice, why_steps,
};
use crate::pairs::{Operands, why_concat, why_contract, why_convolve};
use crate::sizes::{sizes_in, why_axes};
use crate::source::Source;
use expr_reader::{Dims, Fault, read_part};
use serde_json::Value;
use std::alloc::{AllocError, Global};

/// The operation of a node by its name, its arguments, and the version of the request.
#[derive(Clone, Copy)]
pub(crate) struct Call<'v> {
    pub(crate) version: u64,
    pub(crate) name: &'v str,
    pub(crate) arguments: &'v [Value],
}

/// Says why operands of these dims, or the arguments, fail an operation's checks.
pub(crate) fn why_shapes(
    alloc: Global,
    call: Call<'_>,
    dims: &[Dims],
) -> Result<String, AllocError> {
    let reason = match dims {
        [first] => why_one(alloc, call, first.as_slice())?,
        [first, second] => why_two(
            alloc,
            call,
            Operands {
                first: first.as_slice(),
                second: second.as_slice(),
            },
        )?,
        [first, second, third] => Some(format!(in alloc;
            "the operands of \"{}\" must have the same dims; they have {:?}, {:?} and {:?}",
            call.name,
            first.as_slice(),
            second.as_slice(),
            third.as_slice()
        )?),
        _ => None,
    };
    match reason {
        Some(reason) => Ok(reason),
        None => why_unfit(alloc, call),
    }
}

/// Says only that the dims do not fit the operation, if no better reason is known.
pub(crate) fn why_unfit(alloc: Global, call: Call<'_>) -> Result<String, AllocError> {
    format!(in alloc; "the dims of the operands don't fit \"{}\"", call.name)
}

/// Returns the result dims of the operands of the node at the end of a way, or `None` if one of them
/// has a fault after all.
pub(crate) fn dims_of_each(
    alloc: Global,
    source: Source<'_, '_>,
    way: &[u8],
    operands: &[Value],
) -> Result<Option<Vec<Dims>>, AllocError> {
    let mut dims = Vec::new(alloc);
    for operand in operands {
        match dims_of(alloc, source, way, operand)? {
            Some(of_one) => dims.push(of_one)?,
            None => return Ok(None),
        }
    }
    Ok(Some(dims))
}

/// Returns the result dims of an operand of the node at the end of a way.
fn dims_of(
    alloc: Global,
    source: Source<'_, '_>,
    way: &[u8],
    operand: &Value,
) -> Result<Option<Dims>, AllocError> {
    let inside = match source.root().get("expr") {
        Some(expr) => inside_lets(alloc, expr, way, operand)?,
        None => None,
    };
    let part = inside.as_ref().unwrap_or(operand);
    match read_part(alloc, source.parsed, source.values, part) {
        Ok(request) => Ok(Some(request.dims)),
        Err(Fault::NoMemory) => Err(AllocError),
        Err(_) => Ok(None),
    }
}

/// Says why the dims of the operand, or the arguments, fail the checks, if it is known.
fn why_one(alloc: Global, call: Call<'_>, dims: &[u64]) -> Result<Option<String>, AllocError> {
    let Some(argument) = call.arguments.first() else {
        return Ok(None);
    };
    match call.name {
        "reverse" => why_lengths(alloc, "FLAGS", argument, dims),
        "pad" => why_pad(alloc, call.version, argument, dims),
        "chip" => why_chip(alloc, call.arguments, dims),
        "slice" => why_slice(alloc, call.arguments, dims),
        "cumsum" | "cumprod" | "argmax" | "argmin" => why_along(alloc, argument, dims),
        _ => match sizes_in(alloc, argument)? {
            Some(sizes) => why_sizes(alloc, call, sizes.as_slice(), dims),
            None => Ok(None),
        },
    }
}

/// Says why a list of sizes does not fit the dims of the operand, if it is known.
fn why_sizes(
    alloc: Global,
    call: Call<'_>,
    sizes: &[u64],
    dims: &[u64],
) -> Result<Option<String>, AllocError> {
    match call.name {
        "broadcast" => why_broadcast(alloc, call.version, sizes, dims),
        "reshape" => why_reshape(alloc, call.version, sizes, dims),
        "shuffle" => why_order(alloc, sizes, dims),
        "stride" => why_steps(alloc, sizes, dims),
        _ => why_axes(alloc, "AXES", sizes, dims),
    }
}

/// Says why the dims of two operands, or the arguments, fail the checks, if it is known.
fn why_two(
    alloc: Global,
    call: Call<'_>,
    operands: Operands<'_>,
) -> Result<Option<String>, AllocError> {
    let Some(argument) = call.arguments.first() else {
        let Operands { first, second } = operands;
        let reason = format!(in alloc;
            "the operands of \"{}\" must have the same dims; they have {first:?} and {second:?}",
            call.name
        )?;
        return Ok(Some(reason));
    };
    match call.name {
        "concat" => why_concat(alloc, call.version, argument, operands),
        "contract" => why_contract(alloc, call.version, argument, operands),
        "take" => why_take(alloc, call.version, argument, operands),
        _ => why_convolve(alloc, call.version, argument, operands),
    }
}
