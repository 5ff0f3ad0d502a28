//! The head of a node in a record: the number of its operation, the number of its arguments, and
//! the arguments. `write_head` in `written.rt` writes it.

ghost use Rattle.std.specs.Prelude.{◌≡◌, ◌≢◌, ℕ, List, IfSome, IfNone};
ghost use Rattle.prepared_expressions.specs.declared.kind.Kind.{Kind};
ghost use Rattle.prepared_expressions.specs.Numbers.{number_of, headed};

use crate::kind::Kind;

/// The operation of a node, its arguments, and the numbers after them.
#[derive(Clone, Copy)]
pub(crate) struct Head<'a> {
    pub(crate) kind: Kind,
    pub(crate) arguments: &'a [u64],
    pub(crate) rest: &'a [u64],
}

/// Reads the head of the node that begins with the first number. `None` if the operation is
/// unknown, or if there are fewer numbers than arguments.
pub(crate) fn read_head(numbers: &[u64]) -> Option<Head<'_>>
    ensures found { IfSome result (λ head. numbers.now
        ≡ headed (number_of head.kind) head.arguments.now head.rest.now) }
    ensures none { IfNone result ((kind : Kind) (arguments rest : List ℕ)
        → numbers.now ≢ headed (number_of kind) arguments rest) }
{
    let [number, count, behind @ ..] = numbers else {
        return None;
    };
    let kind = Kind::of(*number)?;
    if (behind.len() as u64) < *count {
        return None;
    }
    let (arguments, rest) = behind.split_at(*count as usize);
    Some(Head {
        kind,
        arguments,
        rest,
    })
}
