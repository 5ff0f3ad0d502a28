//! How the values of a step are divided into shards, and for which expressions that can be done.

ghost use Rattle.std.specs.Prelude.{◌<◌, IsTrue};
ghost use Rattle.tensor_ops.specs.Parts.{has_parts};
ghost use Rattle.tensor_ops.specs.Tree.{term_of};

use crate::schedule::grain::Grain;
use tensor_ops::{Binary, Expr, MAX_ELEMENTS, Node, Unary};

/// The most values of a step whose values are each divided into shards of a block.
pub(crate) const FEW_VALUES: u64 = 64;

/// How the values of a step are divided into shards.
#[derive(Clone, Copy, Drop)]
pub(crate) struct Sharding {
    /// The number of workers that take part.
    pub(crate) workers: u32,
    /// The number of index lists of a shard, unless there would be too many shards.
    pub(crate) width: u64,
    /// The number of shards that are evaluated at a time.
    pub(crate) leaf: u64,
    /// The most index lists of all values together for which all shards are one leaf.
    pub(crate) few: u64,
    ghost some: { 0 < leaf },
}

impl Sharding {
    /// Returns shards of a block of index lists, each a leaf of its own.
    pub(crate) fn by_blocks(grain: Grain) -> Sharding {
        Sharding {
            workers: grain.workers,
            width: grain.block,
            leaf: 1,
            few: grain.block,
        }
    }

    /// Returns one shard for each value, `leaf` of them at a time.
    pub(crate) fn by_values(leaf: u64, grain: Grain) -> Sharding
        requires { 0 < leaf }
    {
        Sharding {
            workers: grain.workers,
            width: MAX_ELEMENTS,
            leaf,
            few: grain.block,
        }
    }

    /// Returns shards for a reduction of a contraction whose leaves have `places` values, of which
    /// a value combines `run`. A leaf is a part of one value, or several whole values. There is no
    /// least size, since even few values may take long.
    pub(crate) fn by_places(workers: u32, places: u64, run: u64) -> Sharding {
        if places <= run {
            return Sharding {
                workers,
                width: places,
                leaf: 1,
                few: 0,
            };
        }
        Sharding {
            workers,
            width: MAX_ELEMENTS,
            leaf: (places / run.max(1)).max(1),
            few: 0,
        }
    }
}

/// Returns whether an expression is a reduction or a contraction, and the values that are combined
/// lie side by side: it drops or pairs the first axes.
pub(crate) fn has_contiguous_parts(expr: &Expr) -> bool
    ensures { IsTrue result → IsTrue (has_parts (term_of expr.now)) }
{
    match expr.node() {
        Node::Unary(Unary::Reduce(_, axes), _) => are_first(axes),
        Node::Binary(Binary::Contract(pairs), _, _) => are_first_pairs(pairs),
        _ => false,
    }
}

/// Returns whether the axes, each of them named once, are the first ones.
pub(crate) fn are_first(axes: &[u64]) -> bool {
    for axis in axes {
        if *axis >= axes.len() as u64 {
            return false;
        }
    }
    true
}

/// Returns whether the pairs are the first axes of both operands, in order.
fn are_first_pairs(pairs: &[(u64, u64)]) -> bool {
    for axis in 0..pairs.len() {
        if pairs[axis] != (axis as u64, axis as u64) {
            return false;
        }
    }
    true
}
