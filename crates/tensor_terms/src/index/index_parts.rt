//! Index lists in two parts: the indices at some of the axes, and the indices at the other axes.
//! Reductions and contractions in tensor_ops go by these parts too; a change touches
//! `specs/Merged`.

ghost use Rattle.std.specs.Prelude.{◌≡◌, ◌≤◌, ◌<◌, ◌++◌, length, true};
ghost use Rattle.tensor_shape.specs.Index.{size_of, place, index_of};
ghost use Rattle.tensor_shape.specs.Legal.{highest_rank};
ghost use Rattle.tensor_terms.specs.Reduction.{are_axes};
ghost use Rattle.tensor_terms.specs.Merged.{among, others, dims_at, other_dims, merged};

use crate::dims::movement_dims::{extend, shuffled_dims};
use crate::expr::node::Movement;
use crate::index::merged::{among, others};
use crate::index::moved_index::moved_place;
use tensor_shape::{Dims, PerAxis};

/// Returns the axes below `rank` that are in `axes`, in ascending order.
pub fn all_among(axes: &[u64], rank: usize) -> PerAxis
    requires { rank ≤ highest_rank }
    ensures { result.items ≡ among axes.now rank }
{
    among(axes, 0, rank as u64)
}

/// Returns the axes below `rank` that are not in `axes`, in ascending order.
fn all_others(axes: &[u64], rank: usize) -> PerAxis
    requires { rank ≤ highest_rank }
    ensures { result.items ≡ others axes.now rank }
{
    others(axes, 0, rank as u64)
}

/// Returns the dims of these axes, in the order of `axes`. They are legal, since they have no other
/// factors.
pub fn dims_at(axes: &[u64], dims: &Dims) -> Dims
    requires { are_axes (length dims.now) axes.now ≡ true }
    ensures { result ≡ dims_at axes.now dims.now }
{
    shuffled_dims(axes, dims.as_slice()).unwrap()
}

/// Returns the dims of the axes that are not in `axes`, in ascending order.
pub fn other_dims(axes: &[u64], dims: &Dims) -> Dims
    ensures { result ≡ other_dims axes.now dims.now }
{
    dims_at(all_others(axes, dims.rank()).as_slice(), dims)
}

/// Returns the place in `dims` of an index list in two parts. `inner` is the place of its indices
/// at `axes`, and `outer` is the place of its other indices. A shuffle that puts `axes` first reads
/// this place too.
pub(crate) fn merged_place(axes: &[u64], dims: &Dims, inner: u64, outer: u64) -> u64
    requires axes { are_axes (length dims.now) axes.now ≡ true }
    requires inner { inner < size_of (dims_at axes.now dims.now) }
    requires outer { outer < size_of (other_dims axes.now dims.now) }
    ensures value { result ≡ place dims.now (merged axes.now dims.now
        (index_of (dims_at axes.now dims.now) inner)
        (index_of (other_dims axes.now dims.now) outer)) }
    ensures below { result < size_of dims.now }
{
    let sizes = dims.as_slice();
    let order = axes_first(axes, sizes.len());
    let count = dims_at(axes, dims).size();
    moved_place(
        Movement::Shuffle(order.as_slice()),
        dims,
        inner + count * outer,
    )
}

/// Returns all axes below `rank`: first `axes`, and then the others in ascending order.
pub fn axes_first(axes: &[u64], rank: usize) -> PerAxis
    requires few { rank ≤ highest_rank }
    requires axes { are_axes rank axes.now ≡ true }
    ensures { result.items ≡ axes.now ++ others axes.now rank }
{
    let mut order = PerAxis::new();
    extend(&mut order, axes);
    extend(&mut order, all_others(axes, rank).as_slice());
    order
}
