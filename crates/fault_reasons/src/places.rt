//! Finds what is at a place of a request's JSON value. A place comes from `expr_reader`, whose walk
//! counts nodes as `nodes_before` does here.

use crate::lets::let_elements;
use crate::operations::known_operation;
use expr_reader::Place;
use serde_json::Value;

/// Returns the value at a place.
pub(crate) fn value_at<'v>(root: &'v Value, place: &Place<'_>) -> Option<&'v Value> {
    match place {
        Place::Whole => Some(root),
        Place::Field(name) => root.get(*name),
        Place::Input(name) => root.get("inputs")?.get(*name),
        Place::Node(indices) => node_at(root, indices.as_slice()),
    }
}

/// Returns the node that has the value at a place as an element, and the element's index.
pub(crate) fn above<'v>(root: &'v Value, place: &Place<'_>) -> Option<(&'v Value, usize)> {
    let Place::Node(indices) = place else {
        return None;
    };
    let [index, way @ ..] = indices.as_slice() else {
        return None;
    };
    Some((node_at(root, way)?, *index as usize))
}

/// Returns the value in the expression to which these indices lead; the innermost index is the
/// first.
fn node_at<'v>(root: &'v Value, indices: &[u8]) -> Option<&'v Value> {
    let mut value = root.get("expr")?;
    for index in indices.iter().rev() {
        value = value.get(*index as usize)?;
    }
    Some(value)
}

/// Returns how many nodes the reader's walk meets before the node at a place: the nodes on the way
/// to it, and all nodes of the operands before the way, which have no fault.
pub(crate) fn nodes_before(root: &Value, place: &Place<'_>) -> u64 {
    let (Place::Node(indices), Some(expr)) = (place, root.get("expr")) else {
        return 0;
    };
    let mut value = expr;
    let mut nodes = 0u64;
    for index in indices.as_slice().iter().rev() {
        let Some(below) = value.get(*index as usize) else {
            return nodes;
        };
        nodes = nodes
            .saturating_add(1)
            .saturating_add(nodes_left(value, *index as usize));
        value = below;
    }
    nodes
}

/// Returns how many nodes the operands before this index have. The name that a `let` gives is none.
fn nodes_left(value: &Value, index: usize) -> u64 {
    let first = if let_elements(value).is_some() { 2 } else { 1 };
    let mut nodes = 0u64;
    if let Some(elements) = value.as_array() {
        for operand in elements.iter().take(index).skip(first) {
            nodes = nodes.saturating_add(nodes_in(operand));
        }
    }
    nodes
}

/// Returns how many nodes an expression without a fault has.
fn nodes_in(value: &Value) -> u64 {
    match value {
        Value::Array(elements) => {
            let operands = operands_of(elements.as_slice());
            let mut nodes = 1u64;
            for (index, element) in elements.iter().enumerate() {
                if 1 <= index && index <= operands {
                    nodes = nodes.saturating_add(nodes_in(element));
                }
            }
            nodes
        }
        _ => 1,
    }
}

/// Returns how many operands a node has.
fn operands_of(elements: &[Value]) -> usize {
    let Some(name) = elements.first().and_then(Value::as_str) else {
        return 0;
    };
    match known_operation(name) {
        Some(operation) => operation.operands,
        None => 0,
    }
}
