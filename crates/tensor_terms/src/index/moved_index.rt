//! Where a movement reads its operand. A change touches `specs/Movement`; tensor_views proves its
//! views against that definition.

ghost use Rattle.std.specs.Prelude.{◌≡◌, ◌≤◌, ◌<◌, ◌+◌, ◌-◌, ◌*◌, ◌^◌, ℕ, List, [], length, map};
ghost use Rattle.std.specs.Prelude.{slice_index, insert, Ok, IsOk, if◌then◌else◌};
ghost use Rattle.std.specs.Result.{result_unwrap_or};
ghost use Rattle.tensor_shape.specs.Index.{size_of, IsIndexOf, place, index_of};
ghost use Rattle.tensor_shape.specs.Legal.{highest_rank, widest};
ghost use Rattle.tensor_terms.specs.Movement.{moved_dims, moved};
ghost use Rattle.tensor_terms.specs.Movement.{wrapped, offset_by, scattered, mirrored, scaled};
ghost use Rattle.tensor_terms.specs.Tree.{movement_at};

use crate::dims::movement_dims::{extend, moved_dims};
use crate::expr::node::Movement;
use tensor_shape::{Dims, PerAxis, WIDEST};

/// Returns the place of the operand that a movement reads for a place of the result. `dims` are
/// the operand's dims.
pub(crate) fn moved_place(movement: Movement<'_>, dims: &Dims, linear: u64) -> u64
    requires dims { IsOk (moved_dims widest (movement_at movement) dims.now) }
    requires below { linear
        < size_of (result_unwrap_or (moved_dims widest (movement_at movement) dims.now) []) }
    ensures value { result ≡ place dims.now (moved (movement_at movement.entry) dims.now
        (index_of (result_unwrap_or (moved_dims widest (movement_at movement.entry) dims.now) [])
        linear)) }
    ensures below { result < size_of dims.now }
{
    let shape = moved_dims(WIDEST, movement, dims).unwrap();
    let index = shape.index_of(linear);
    let read = moved(movement, dims, &shape, index.as_slice());
    dims.linear(read.as_slice())
}

/// Returns the index list of the operand that a movement reads for an index list of the result,
/// whose dims are `shape`.
fn moved(movement: Movement<'_>, dims: &Dims, shape: &Dims, index: &[u64]) -> PerAxis
    requires shape { moved_dims widest (movement_at movement) dims.now ≡ Ok shape.now }
    requires index { IsIndexOf shape.now index.now }
    ensures { result.items ≡ moved (movement_at movement.entry) dims.now index.now }
{
    let sizes = dims.as_slice();
    match movement {
        Movement::Broadcast(_) => wrapped(sizes, index),
        Movement::Slice(offsets, _) => offset_by(offsets, index),
        Movement::Shuffle(order) => scattered(order, index, sizes),
        Movement::Reshape(_) => dims.index_of(shape.linear(index)),
        Movement::Chip(offset, axis) => inserted(index, axis as usize, offset),
        Movement::Reverse(flags) => mirrored(flags, sizes, index),
        Movement::Stride(steps) => scaled(steps, index),
    }
}

/// Returns each index modulo the size of its axis.
fn wrapped(sizes: &[u64], index: &[u64]) -> PerAxis
    requires same { length index.now ≡ length sizes.now }
    requires few { length sizes.now ≤ highest_rank }
    requires some { (k : ℕ) → k < length sizes.now → 0 < slice_index sizes.now k }
    ensures { result.items ≡ wrapped sizes.now index.now }
{
    let mut read = PerAxis::new();
    for axis in 0..sizes.len() {
        read.push(index[axis] % sizes[axis]);
    }
    read
}

/// Returns each index plus its offset.
fn offset_by(offsets: &[u64], index: &[u64]) -> PerAxis
    requires same { length index.now ≡ length offsets.now }
    requires few { length offsets.now ≤ highest_rank }
    requires small { (k : ℕ) → k < length offsets.now
        → slice_index index.now k + slice_index offsets.now k < 2 ^ 64 }
    ensures { result.items ≡ offset_by offsets.now index.now }
{
    let mut read = PerAxis::new();
    for axis in 0..offsets.len() {
        read.push(index[axis] + offsets[axis]);
    }
    read
}

/// Returns each index times its step.
fn scaled(steps: &[u64], index: &[u64]) -> PerAxis
    requires same { length index.now ≡ length steps.now }
    requires few { length steps.now ≤ highest_rank }
    requires small { (k : ℕ) → k < length steps.now
        → slice_index index.now k * slice_index steps.now k < 2 ^ 64 }
    ensures { result.items ≡ scaled steps.now index.now }
{
    let mut read = PerAxis::new();
    for axis in 0..steps.len() {
        read.push(index[axis] * steps[axis]);
    }
    read
}

/// Returns an index list with `index[k]` at axis `order[k]`, and 0 at all other axes.
fn scattered(order: &[u64], index: &[u64], sizes: &[u64]) -> PerAxis
    requires same { length index.now ≡ length order.now }
    requires few { length sizes.now ≤ highest_rank }
    requires axes { (k : ℕ) → k < length order.now → slice_index order.now k < length sizes.now }
    ensures { result.items ≡ scattered order.now index.now (map (λ d. 0) sizes.now) }
{
    let mut read = zeros(sizes);
    for k in (0..order.len()).rev() {
        read[order[k] as usize] = index[k];
    }
    read
}

/// Returns the index list with one more index, at the given axis.
fn inserted(index: &[u64], axis: usize, offset: u64) -> PerAxis
    requires axis { axis ≤ length index.now }
    requires few { length index.now < highest_rank }
    ensures { result.items ≡ insert index.now axis offset }
{
    let mut read = PerAxis::new();
    extend(&mut read, index);
    read.insert(axis, offset);
    read
}

/// Returns each index, mirrored at the axes whose flag is set.
fn mirrored(flags: &[bool], sizes: &[u64], index: &[u64]) -> PerAxis
    requires flags { length flags.now ≡ length sizes.now }
    requires same { length index.now ≡ length sizes.now }
    requires few { length sizes.now ≤ highest_rank }
    requires below { (k : ℕ) → k < length sizes.now
        → slice_index index.now k < slice_index sizes.now k }
    ensures { result.items ≡ mirrored flags.now sizes.now index.now }
{
    let mut read = PerAxis::new();
    for axis in 0..sizes.len() {
        read.push(swapped(flags[axis], sizes[axis], index[axis]));
    }
    read
}

/// Returns an index, mirrored if `flag` is set: `size - 1 - index`.
fn swapped(flag: bool, size: u64, index: u64) -> u64
    requires { index < size }
    ensures { result ≡ (if flag then size - 1 - index else index) }
{
    if flag { size - 1 - index } else { index }
}

/// A zero for each size.
fn zeros(sizes: &[u64]) -> PerAxis
    requires { length sizes.now ≤ highest_rank }
    ensures { result.items ≡ map (λ d. 0) sizes.now }
{
    let mut zeros = PerAxis::new();
    for _size in sizes {
        zeros.push(0);
    }
    zeros
}
