//! Reasons for the faults UnknownInput, UnknownOp, BadArity and BadArgument. What an operation
//! takes is in `operations.rt`.

use crate::found::{found, quoted};
use crate::lets::{LET, let_elements, why_let, why_let_name};
use crate::operations::{Form, Operation, known_operation};
use crate::source::Source;
use serde_json::Value;
use std::alloc::{AllocError, Global};

/// The most names of inputs that a reason lists.
const MOST_NAMES: usize = 5;

/// Says that no input has this name, and which names there are.
pub(crate) fn why_input(
    alloc: Global,
    source: Source<'_, '_>,
    value: &Value,
) -> Result<String, AllocError> {
    let name = quoted(alloc, value.as_str().unwrap_or(""))?;
    let names = names(alloc, source.root().get("inputs"))?;
    let which = if source.version() == 3 {
        "no input or earlier \"let\""
    } else {
        "no input"
    };
    format!(in alloc; "{which} is named {name}: {names}")
}

/// Lists the names of the inputs, or the first of them.
fn names(alloc: Global, inputs: Option<&Value>) -> Result<String, AllocError> {
    let Some(members) = inputs.and_then(Value::as_object) else {
        return format!(in alloc; "there are none");
    };
    if members.is_empty() {
        return format!(in alloc; "there are none");
    }
    let mut names = String::from_str(alloc, "the inputs are")?;
    let mut shown = 0usize;
    for (name, _) in members {
        if shown >= MOST_NAMES {
            names.push_str(" and others")?;
            break;
        }
        names.push_str(if shown == 0 { " " } else { ", " })?;
        names.push_str(quoted(alloc, name.as_str())?.as_str())?;
        shown = shown.saturating_add(1);
    }
    Ok(names)
}

/// Says why the first element of a node is not an operation of this version.
pub(crate) fn why_operation(
    alloc: Global,
    source: Source<'_, '_>,
    value: &Value,
) -> Result<String, AllocError> {
    let version = source.version();
    let Some(name) = value.as_str() else {
        let what = found(alloc, value)?;
        return format!(in alloc;
            "a node begins with the name of an operation; this one begins with {what}"
        );
    };
    let shown = quoted(alloc, name)?;
    if !source.is_text() && name == LET {
        return why_let(alloc, version);
    }
    if let Some(operation) = known_operation(name) {
        let first = operation.version;
        let (whose, what) = match (source.is_text(), first) {
            (true, 3) => (" (frames only)", "text"),
            (true, _) => ("", "text"),
            (false, _) => ("", "header"),
        };
        return format!(in alloc;
            "{shown} is an operation of version {first}{whose}; this is a {what} of version {version}"
        );
    }
    match near(name) {
        Some(near) => {
            format!(in alloc; "no operation of version {version} is named {shown}: {near}")
        }
        None => format!(in alloc; "no operation of version {version} is named {shown}"),
    }
}

/// Suggests an operation for a name that other libraries use.
fn near(name: &str) -> Option<&'static str> {
    match name {
        "max" => Some("\"maximum\" reduces axes, and \"cwise_max\" takes two tensors"),
        "min" => Some("\"minimum\" reduces axes, and \"cwise_min\" takes two tensors"),
        "const" | "fill" => Some("\"constant\" has one value at each place"),
        "matmul" | "dot" => Some("\"contract\" sums products over pairs of axes"),
        "transpose" | "permute" => Some("\"shuffle\" reorders the axes"),
        "product" => Some("\"prod\" reduces axes, and \"mul\" takes two tensors"),
        _ => None,
    }
}

/// Says why a value is not a node.
pub(crate) fn why_node(alloc: Global, value: &Value) -> Result<String, AllocError> {
    let what = found(alloc, value)?;
    if value.as_i64().is_some() {
        return format!(in alloc;
            "a number is not an expression; [\"constant\",x,{what}] has the number at each place of x"
        );
    }
    format!(in alloc;
        "an expression is the name of an input or a list that begins with an operation; this is {what}"
    )
}

/// Says how many elements a node should have after the name of its operation, and how many it has.
pub(crate) fn why_arity(alloc: Global, value: &Value) -> Result<String, AllocError> {
    let (name, takes, count) = if let Some(elements) = let_elements(value) {
        let takes = format!(in alloc; "a name and then two expressions")?;
        (LET, takes, elements.len())
    } else if let Some((name, operation, count)) = node(value) {
        (name, takes(alloc, &operation)?, count)
    } else {
        return why_node(alloc, value);
    };
    let elements = if count == 1 {
        "element follows"
    } else {
        "elements follow"
    };
    format!(in alloc; "\"{name}\" takes {takes}; {count} {elements} it")
}

/// Returns the name of a node's operation, what it takes, and how many elements follow the name.
fn node(value: &Value) -> Option<(&str, Operation, usize)> {
    let elements = value.as_array()?;
    let name = elements.first()?.as_str()?;
    Some((name, known_operation(name)?, elements.len() - 1))
}

/// Says which operands and arguments an operation takes.
fn takes(alloc: Global, operation: &Operation) -> Result<String, AllocError> {
    let operands = match operation.operands {
        1 => "one operand",
        2 => "two operands",
        _ => "three operands",
    };
    match (operation.first, operation.second) {
        (Some(first), Some(second)) => {
            format!(in alloc; "{operands} and then {} and {}", first.name, second.name)
        }
        (Some(first), None) => format!(in alloc; "{operands} and then {}", first.name),
        (None, _) => format!(in alloc; "{operands}"),
    }
}

/// Says why the element at `index` of a node is not the argument that its operation takes there.
pub(crate) fn why_argument(
    alloc: Global,
    node_value: &Value,
    index: usize,
    value: &Value,
) -> Result<String, AllocError> {
    if let_elements(node_value).is_some() {
        return why_let_name(alloc, value);
    }
    let Some((name, operation, _)) = node(node_value) else {
        return why_node(alloc, node_value);
    };
    let Some(argument) = operation.argument(index) else {
        return why_arity(alloc, node_value);
    };
    let form = argument.form.words();
    let what = wrong(alloc, argument.form, value)?;
    format!(in alloc; "{} of \"{name}\" must be {form}; {what}", argument.name)
}

/// Says what is wrong with a value that should have this form: an item of it, or the whole value.
fn wrong(alloc: Global, form: Form, value: &Value) -> Result<String, AllocError> {
    if let Some(list) = value.as_array() {
        for (index, item) in list.iter().enumerate() {
            if !is_item(form, item) {
                let what = found(alloc, item)?;
                return format!(in alloc; "the item at index {index} is {what}");
            }
        }
    }
    let what = found(alloc, value)?;
    format!(in alloc; "this is {what}")
}

/// Returns whether a value may be an item of an argument of this form.
fn is_item(form: Form, item: &Value) -> bool {
    match form {
        Form::Size | Form::Value => true,
        Form::Sizes => is_size(item),
        Form::Flags => item.is_boolean(),
        Form::Pairs => match item.as_array() {
            Some(pair) => pair.len() == 2 && is_size(&pair[0]) && is_size(&pair[1]),
            None => false,
        },
    }
}

fn is_size(value: &Value) -> bool {
    match value.as_u64() {
        Some(size) => size <= 9_223_372_036_854_775_807,
        None => false,
    }
}
