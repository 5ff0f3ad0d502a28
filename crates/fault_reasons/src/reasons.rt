//! Chooses the reason for a fault by its number and its place. A new fault, or a fault at a new
//! kind of place, needs an arm here; otherwise its reason is only the fault's name in words.

use crate::fields::{why_block, why_fields, why_version, why_workers};
use crate::nodes::{why_argument, why_arity, why_input, why_node, why_operation};
use crate::operations::known_operation;
use crate::places::{above, nodes_before, value_at};
use crate::shapes::{Call, dims_of_each, why_shapes, why_unfit};
use crate::source::Source;
use crate::tensors::{why_header_tensor, why_inputs, why_tensor};
use expr_reader::{Fault, Located, MAX_NODES, Place, WIDEST_NODES};
use serde_json::Value;
use std::alloc::{AllocError, Global};

/// Says why a text or a header has this fault at this place.
pub(crate) fn why(
    alloc: Global,
    source: Source<'_, '_>,
    located: &Located<'_>,
) -> Result<String, AllocError> {
    let (root, version) = (source.root(), source.version());
    let Some(value) = value_at(root, &located.place) else {
        return format!(in alloc; "{}", located.fault);
    };
    match located.fault {
        Fault::BadField => why_fields(alloc, value),
        Fault::BadVersion => why_version(alloc, source, value),
        Fault::BadWorkers => why_workers(alloc, version, value),
        Fault::BadBlock => why_block(alloc, version, value),
        Fault::BadTensor => match located.place {
            Place::Input(_) if source.is_text() => why_tensor(alloc, version, value),
            Place::Input(name) => why_header_tensor(alloc, source, name, value),
            _ => why_inputs(alloc, source, value),
        },
        Fault::UnknownInput => why_input(alloc, source, value),
        Fault::BadArity => why_arity(alloc, value),
        Fault::UnknownOp | Fault::BadArgument => why_element(alloc, source, located, value),
        Fault::TooLarge if nodes_before(root, &located.place) >= most_nodes(version) => {
            why_too_many(alloc, version)
        }
        Fault::ShapeMismatch | Fault::OutOfRange | Fault::TooLarge => {
            why_checks(alloc, source, &located.place, value)
        }
        fault => format!(in alloc; "{fault}"),
    }
}

/// Says why an element of a node is not an operation or an argument, or why a value is not a node.
fn why_element(
    alloc: Global,
    source: Source<'_, '_>,
    located: &Located<'_>,
    value: &Value,
) -> Result<String, AllocError> {
    match (located.fault, above(source.root(), &located.place)) {
        (Fault::UnknownOp, Some((_, 0))) => why_operation(alloc, source, value),
        (Fault::BadArgument, Some((node, index))) => why_argument(alloc, node, index, value),
        _ => why_node(alloc, value),
    }
}

/// Says why the dims or arguments of a node fail its operation's checks.
fn why_checks(
    alloc: Global,
    source: Source<'_, '_>,
    place: &Place<'_>,
    node: &Value,
) -> Result<String, AllocError> {
    let Some([head, elements @ ..]) = node.as_array().map(Vec::as_slice) else {
        return why_node(alloc, node);
    };
    let name = head.as_str().unwrap_or("");
    let Some(operation) = known_operation(name) else {
        return why_node(alloc, node);
    };
    let (operands, arguments) = elements.split_at(operation.operands.min(elements.len()));
    let call = Call {
        version: source.version(),
        name,
        arguments,
    };
    let way = match place {
        Place::Node(indices) => indices.as_slice(),
        Place::Whole | Place::Field(_) | Place::Input(_) => &[],
    };
    match dims_of_each(alloc, source, way, operands)? {
        Some(dims) => why_shapes(alloc, call, dims.as_slice()),
        None => why_unfit(alloc, call),
    }
}

/// Returns the largest number of nodes of an expression in a version.
fn most_nodes(version: u64) -> u64 {
    if version == 3 {
        WIDEST_NODES
    } else {
        MAX_NODES
    }
}

/// Says that a node is one more than an expression of this version may have.
fn why_too_many(alloc: Global, version: u64) -> Result<String, AllocError> {
    let most = most_nodes(version);
    let number = most.saturating_add(1);
    format!(in alloc; "this is the {number}st node; an expression may have at most {most}")
}
