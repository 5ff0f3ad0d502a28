//! Combines what shards contribute into values.

ghost use Rattle.std.specs.Prelude.{◌≡◌, ◌<◌, ◌*◌, length, map, IfOk};
ghost use Rattle.std.specs.List.{range_with_len};
ghost use Rattle.tensor_ops.specs.Combining.{combination};
ghost use Rattle.tensor_ops.specs.Tree.{term_of};
ghost use Rattle.tensor_reduce.specs.private.Combined.{combined_by, reducer_of};

use std::alloc::{AllocError, Global};
use tensor_ops::{Expr, Node, Reducer, Unary};

/// Returns the reducer that combines the parts of a value: a reduction's own, or sums for a
/// contraction.
pub(crate) fn reducer_of(expr: &Expr) -> Reducer
    ensures { result ≡ reducer_of (term_of expr.now) }
{
    match expr.node() {
        Node::Unary(Unary::Reduce(reducer, _), _) => reducer,
        _ => Reducer::Sum,
    }
}

/// Returns `values` values, each combined of `count` parts that stand one after the other.
pub(crate) fn combined_values(
    alloc: Global,
    reducer: Reducer,
    parts: &[i64],
    values: usize,
    count: usize,
) -> Result<Vec<i64>, AllocError>
    requires { length parts.now ≡ values * count }
    ensures { IfOk result (λ v.
        v.items ≡ map (combined_by reducer count parts.now) (range_with_len 0 values)) }
{
    let mut combined = Vec::with_capacity(alloc, values)?;
    for value in 0..values {
        let first = value * count;
        combined.push_reserved(combination(reducer, &parts[first..first + count]));
    }
    Ok(combined)
}

/// Returns the combination of parts in order, from the unit.
fn combination(reducer: Reducer, parts: &[i64]) -> i64
    ensures { result ≡ combination reducer parts.now }
{
    let mut value = reducer.unit();
    for part in parts {
        value = reducer.combine(value, *part);
    }
    value
}
