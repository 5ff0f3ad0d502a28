//! The result dims of movements, and calls on lists of sizes that the other modules use. A change
//! touches `specs/Movement`, and the views of tensor_views, which read what these dims allow.

ghost use Rattle.std.specs.Prelude.{◌≡◌, ◌≤◌, ◌<◌, ◌+◌, ◌++◌, ℕ, length, slice_index, remove};
ghost use Rattle.std.specs.Prelude.{Ok, IsOk};
ghost use Rattle.tensor_shape.specs.Legal.{highest_rank, widest, IsPossible};
ghost use Rattle.tensor_terms.specs.Movement.{moved_dims, repeated_dims, shuffled_dims, none_is_zero};
ghost use Rattle.tensor_terms.specs.Movement.{strided_dims};
ghost use Rattle.tensor_terms.specs.Movement.{fit_within, is_among, has_all_below};
ghost use Rattle.tensor_terms.specs.Shaped.{legal_dims};
ghost use Rattle.tensor_terms.specs.Term.{broadcast, slice, shuffle, reshape, chip, reverse, stride};
ghost use Rattle.tensor_terms.specs.Tree.{movement_at};

use crate::expr::node::Movement;
use crate::fault::ExprFault;
use tensor_shape::{Bounds, Dims, PerAxis, WIDEST};

/// Returns the result dims of a movement within `bounds`, or the fault of the first check that
/// fails.
pub fn moved_dims(bounds: Bounds, movement: Movement<'_>, dims: &Dims) -> Result<Dims, ExprFault>
    requires { IsPossible bounds }
    ensures { result ≡ moved_dims bounds (movement_at movement.entry) dims.now }
{
    match movement {
        Movement::Broadcast(counts) => broadcast_dims(bounds, counts, dims),
        Movement::Slice(offsets, extents) => slice_dims(offsets, extents, dims),
        Movement::Shuffle(order) => shuffle_dims(order, dims),
        Movement::Reshape(sizes) => reshape_dims(bounds, sizes, dims),
        Movement::Chip(offset, axis) => chip_dims(offset, axis, dims),
        Movement::Reverse(flags) => reverse_dims(flags, dims),
        Movement::Stride(steps) => stride_dims(steps, dims),
    }
}

/// Returns the dims of a broadcast: each size times its count, which must not be 0.
fn broadcast_dims(bounds: Bounds, counts: &[u64], dims: &Dims) -> Result<Dims, ExprFault>
    requires { IsPossible bounds }
    ensures { result ≡ moved_dims bounds (broadcast counts.now) dims.now }
{
    if counts.len() != dims.rank() {
        return Err(ExprFault::ShapeMismatch);
    }
    if !none_is_zero(counts) {
        return Err(ExprFault::OutOfRange);
    }
    repeated_dims(bounds, counts, dims.as_slice())
}

/// Returns the dims of a slice, which are its extents.
fn slice_dims(offsets: &[u64], extents: &[u64], dims: &Dims) -> Result<Dims, ExprFault>
    ensures { result ≡ moved_dims widest (slice offsets.now extents.now) dims.now }
{
    if offsets.len() != dims.rank() || extents.len() != dims.rank() {
        return Err(ExprFault::ShapeMismatch);
    }
    if !fit_within(dims.as_slice(), offsets, extents) {
        return Err(ExprFault::OutOfRange);
    }
    // The result is legal, since no size grows.
    legal_dims(WIDEST, extents)
}

/// Returns the dims of a shuffle, whose order must name each axis once.
fn shuffle_dims(order: &[u64], dims: &Dims) -> Result<Dims, ExprFault>
    ensures { result ≡ moved_dims widest (shuffle order.now) dims.now }
{
    let sizes = dims.as_slice();
    if order.len() != sizes.len() {
        return Err(ExprFault::ShapeMismatch);
    }
    if !has_all_below(sizes.len() as u64, order) {
        return Err(ExprFault::OutOfRange);
    }
    // The result is legal, since a permutation keeps the product.
    shuffled_dims(order, sizes)
}

/// Returns the dims of a reshape, which must have as many elements as the operand.
fn reshape_dims(bounds: Bounds, sizes: &[u64], dims: &Dims) -> Result<Dims, ExprFault>
    requires { IsPossible bounds }
    ensures { result ≡ moved_dims bounds (reshape sizes.now) dims.now }
{
    let shape = legal_dims(bounds, sizes)?;
    if shape.size() == dims.size() {
        Ok(shape)
    } else {
        Err(ExprFault::ShapeMismatch)
    }
}

/// Returns the dims of a chip, which lack its axis.
fn chip_dims(offset: u64, axis: u64, dims: &Dims) -> Result<Dims, ExprFault>
    ensures { result ≡ moved_dims widest (chip offset axis) dims.now }
{
    let sizes = dims.as_slice();
    if axis >= sizes.len() as u64 || offset >= sizes[axis as usize] {
        return Err(ExprFault::OutOfRange);
    }
    // The result is legal, since it only lacks a factor.
    dims_without(axis as usize, sizes)
}

/// Returns the dims of a reverse: the operand's dims.
fn reverse_dims(flags: &[bool], dims: &Dims) -> Result<Dims, ExprFault>
    ensures { result ≡ moved_dims widest (reverse flags.now) dims.now }
{
    if flags.len() == dims.rank() {
        Ok(dims.copied())
    } else {
        Err(ExprFault::ShapeMismatch)
    }
}

/// Returns the dims of a stride: along each axis, the number of multiples of the step, which must
/// not be 0.
fn stride_dims(steps: &[u64], dims: &Dims) -> Result<Dims, ExprFault>
    ensures { result ≡ moved_dims widest (stride steps.now) dims.now }
{
    if steps.len() != dims.rank() {
        return Err(ExprFault::ShapeMismatch);
    }
    if !none_is_zero(steps) {
        return Err(ExprFault::OutOfRange);
    }
    // The result is legal, since no size grows.
    strided_dims(steps, dims.as_slice())
}

/// Returns dims of the given sizes, or `TooLarge` if they aren't within `bounds`.
pub(crate) fn legal_dims(bounds: Bounds, sizes: &[u64]) -> Result<Dims, ExprFault>
    requires { IsPossible bounds }
    ensures { result ≡ legal_dims bounds sizes.now }
{
    match Dims::within(bounds, sizes) {
        Ok(dims) => Ok(dims),
        Err(_) => Err(ExprFault::TooLarge),
    }
}

/// Returns the dims in which each size is multiplied by its count. A product that overflows 64 bits
/// is `TooLarge`.
fn repeated_dims(bounds: Bounds, counts: &[u64], sizes: &[u64]) -> Result<Dims, ExprFault>
    requires bounds { IsPossible bounds }
    requires same { length counts.now ≡ length sizes.now }
    requires few { length sizes.now ≤ highest_rank }
    ensures { result ≡ legal_dims bounds (repeated_dims sizes.now counts.now) }
{
    let mut repeated = PerAxis::new();
    for axis in 0..sizes.len() {
        let Some(size) = sizes[axis].checked_mul(counts[axis]) else {
            return Err(ExprFault::TooLarge);
        };
        repeated.push(size);
    }
    legal_dims(bounds, repeated.as_slice())
}

/// Returns the dims in which each size is divided by its step and rounded up.
fn strided_dims(steps: &[u64], sizes: &[u64]) -> Result<Dims, ExprFault>
    requires same { length steps.now ≡ length sizes.now }
    requires few { length sizes.now ≤ highest_rank }
    requires some { (k : ℕ) → k < length steps.now → 0 < slice_index steps.now k }
    ensures { result ≡ legal_dims widest (strided_dims sizes.now steps.now) }
{
    let mut strided = PerAxis::new();
    for axis in 0..sizes.len() {
        strided.push(sizes[axis].div_ceil(steps[axis]));
    }
    legal_dims(WIDEST, strided.as_slice())
}

/// Returns the dims of the axes in `order`.
pub(crate) fn shuffled_dims(order: &[u64], sizes: &[u64]) -> Result<Dims, ExprFault>
    requires few { length order.now ≤ highest_rank }
    requires axes { (k : ℕ) → k < length order.now
        → slice_index order.now k < length sizes.now }
    ensures { result ≡ legal_dims widest (shuffled_dims sizes.now order.now) }
{
    legal_dims(WIDEST, shuffled(order, sizes).as_slice())
}

/// Returns the numbers of the axes in `order`, given a number for each axis: entry k is
/// `numbers[order[k]]`.
pub fn shuffled(order: &[u64], numbers: &[u64]) -> PerAxis
    requires few { length order.now ≤ highest_rank }
    requires axes { (k : ℕ) → k < length order.now
        → slice_index order.now k < length numbers.now }
    ensures { result.items ≡ shuffled_dims numbers.now order.now }
{
    let mut shuffled = PerAxis::new();
    for axis in order {
        shuffled.push(numbers[*axis as usize]);
    }
    shuffled
}

/// Returns the dims without one axis.
pub(crate) fn dims_without(axis: usize, sizes: &[u64]) -> Result<Dims, ExprFault>
    requires axis { axis < length sizes.now }
    requires few { length sizes.now ≤ highest_rank }
    ensures { result ≡ legal_dims widest (remove sizes.now axis) }
{
    let mut others = PerAxis::new();
    extend(&mut others, &sizes[..axis]);
    extend(&mut others, &sizes[axis + 1..]);
    legal_dims(WIDEST, others.as_slice())
}

/// Appends numbers. At most `MAX_RANK` fit.
pub fn extend(numbers: &mut PerAxis, more: &[u64])
    requires { length numbers.old.items + length more.now ≤ highest_rank }
    ensures { numbers.new.items ≡ numbers.old.items ++ more.now }
{
    for number in more {
        numbers.push(*number);
    }
}

/// Whether no count is 0.
fn none_is_zero(counts: &[u64]) -> bool
    ensures { result ≡ none_is_zero counts.now }
{
    match counts {
        [] => true,
        [first, rest @ ..] => 0 < *first && none_is_zero(rest),
    }
}

/// Whether each offset plus its extent is at most the size of its axis.
fn fit_within(sizes: &[u64], offsets: &[u64], extents: &[u64]) -> bool
    ensures { result ≡ fit_within sizes.now offsets.now extents.now }
{
    let [size, sizes @ ..] = sizes else {
        return true;
    };
    let [offset, offsets @ ..] = offsets else {
        return true;
    };
    let [extent, extents @ ..] = extents else {
        return true;
    };
    let fits = *offset <= *size && *extent <= *size - *offset;
    fits && fit_within(sizes, offsets, extents)
}

/// Whether a number is in a list.
pub(crate) fn is_among(number: u64, list: &[u64]) -> bool
    ensures { result ≡ is_among number list.now }
{
    match list {
        [] => false,
        [first, rest @ ..] => number == *first || is_among(number, rest),
    }
}

/// Whether all numbers below `limit` are in a list.
fn has_all_below(limit: u64, list: &[u64]) -> bool
    ensures { result ≡ has_all_below limit list.now }
{
    limit == 0 || (is_among(limit - 1, list) && has_all_below(limit - 1, list))
}
