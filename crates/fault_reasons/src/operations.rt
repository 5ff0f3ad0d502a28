//! What each operation takes, for the words of reasons: the operands as `expr_reader` has them, and
//! the arguments with their names of docs/REQUEST.md. A new operation with arguments is added here.

use expr_reader::operands_in;

/// The form of an argument.
#[derive(Clone, Copy, Debug, Eq, PartialEq)]
pub(crate) enum Form {
    Size,
    Sizes,
    Pairs,
    Flags,
    Value,
}

impl Form {
    /// Returns the form in words.
    pub(crate) fn words(self) -> &'static str {
        match self {
            Form::Size => "a whole number from 0 to 9223372036854775807",
            Form::Sizes => "a list of whole numbers from 0 to 9223372036854775807",
            Form::Pairs => "a list of lists of two whole numbers from 0 to 9223372036854775807",
            Form::Flags => "a list of truth values",
            Form::Value => { "a whole number from -9223372036854775808 to 9223372036854775807" }
        }
    }
}

/// An argument of an operation: its name in the documents, and its form.
#[derive(Clone, Copy, Debug)]
pub(crate) struct Argument {
    pub(crate) name: &'static str,
    pub(crate) form: Form,
}

/// What follows the name of an operation in a node, and the first version that has the operation.
#[derive(Clone, Copy, Debug)]
pub(crate) struct Operation {
    pub(crate) version: u64,
    pub(crate) operands: usize,
    pub(crate) first: Option<Argument>,
    pub(crate) second: Option<Argument>,
}

impl Operation {
    /// Returns how many arguments follow the operands.
    pub(crate) fn arguments(&self) -> usize {
        match (self.first, self.second) {
            (None, _) => 0,
            (Some(_), None) => 1,
            (Some(_), Some(_)) => 2,
        }
    }

    /// Returns the argument at this index of a node. The index of the first argument is the number
    /// of operands plus 1.
    pub(crate) fn argument(&self, index: usize) -> Option<Argument> {
        if index == self.operands.checked_add(1)? {
            self.first
        } else {
            self.second
        }
    }
}

/// Returns the operation with this name, of any version.
pub(crate) fn known_operation(name: &str) -> Option<Operation> {
    for version in 1..4 {
        if let Some(operands) = operands_in(version, name) {
            return Some(Operation {
                version,
                operands,
                first: first_argument(name),
                second: second_argument(name),
            });
        }
    }
    None
}

/// Returns the first argument of an operation.
fn first_argument(operation: &str) -> Option<Argument> {
    let (name, form) = match operation {
        "constant" => ("VALUE", Form::Value),
        "broadcast" => ("COUNTS", Form::Sizes),
        "slice" => ("OFFSETS", Form::Sizes),
        "shuffle" => ("ORDER", Form::Sizes),
        "reshape" => ("SIZES", Form::Sizes),
        "chip" => ("OFFSET", Form::Size),
        "reverse" => ("FLAGS", Form::Flags),
        "stride" => ("STEPS", Form::Sizes),
        "pad" | "contract" => ("PAIRS", Form::Pairs),
        "sum" | "prod" | "maximum" | "minimum" | "all" | "any" | "convolve" => {
            ("AXES", Form::Sizes)
        }
        "concat" | "cumsum" | "cumprod" | "argmax" | "argmin" | "take" => ("AXIS", Form::Size),
        _ => return None,
    };
    Some(Argument { name, form })
}

/// Returns the second argument of an operation.
fn second_argument(operation: &str) -> Option<Argument> {
    let (name, form) = match operation {
        "slice" => ("EXTENTS", Form::Sizes),
        "chip" => ("AXIS", Form::Size),
        _ => return None,
    };
    Some(Argument { name, form })
}
