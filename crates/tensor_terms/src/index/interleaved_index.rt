//! Where concatenations and pads read their operands. tensor_ops reads ranges of them by
//! `turns_along`; a change touches `specs/Concatenation` and `specs/Padding`.

ghost use Rattle.std.specs.Prelude.{◌≡◌, ◌<◌, ◌≤◌, ◌+◌, length, take, true, false};
ghost use Rattle.std.specs.Prelude.{IsOk, IfSome, IsNone};
ghost use Rattle.tensor_shape.specs.Index.{size_of, place, index_of};
ghost use Rattle.tensor_shape.specs.Legal.{highest_rank, widest};
ghost use Rattle.tensor_terms.specs.Concatenation.{joined_dims, concatenated_dims};
ghost use Rattle.tensor_terms.specs.Padding.{padded_dims, pad_dims, is_inside, moved_back};

use crate::dims::padding_dims::pad_dims;
use tensor_shape::{Dims, PerAxis, WIDEST};
use tensor_values::Turns;

/// Returns the turns of a concatenation along an axis. The places of each operand in a turn are the
/// product of its sizes up to and including the axis.
pub fn turns_along(axis: u64, first: &Dims, second: &Dims) -> Turns
    requires dims { IsOk (concatenated_dims widest axis first.now second.now) }
    requires some { 0 < size_of (joined_dims axis first.now second.now) }
    ensures first { result.first ≡ size_of (take (axis + 1) first.now) }
    ensures second { result.second ≡ size_of (take (axis + 1) second.now) }
{
    Turns {
        first: width_along(axis as usize, first),
        second: width_along(axis as usize, second),
    }
}

/// Returns the product of the sizes up to and including an axis.
fn width_along(axis: usize, dims: &Dims) -> usize
    requires { axis < length dims.now }
    ensures { result ≡ size_of (take (axis + 1) dims.now) }
{
    let sizes = dims.as_slice();
    (dims.stride(axis) * sizes[axis]) as usize
}

/// Returns the place of the operand that a pad reads for a place of the result; `None` if the
/// result has a zero there. `dims` are the operand's dims.
pub(crate) fn padded_place(pairs: &[(u64, u64)], dims: &Dims, linear: u64) -> Option<u64>
    requires dims { IsOk (pad_dims widest pairs.now dims.now) }
    requires below { linear < size_of (padded_dims pairs.now dims.now) }
    ensures inside { IfSome result (λ read. is_inside pairs.now dims.now
        (index_of (padded_dims pairs.now dims.now) linear) ≡ true) }
    ensures value { IfSome result (λ read. read ≡ place dims.now
        (moved_back pairs.now (index_of (padded_dims pairs.now dims.now) linear))) }
    ensures below { IfSome result (λ read. read < size_of dims.now) }
    ensures outside { IsNone result → is_inside pairs.now dims.now
        (index_of (padded_dims pairs.now dims.now) linear) ≡ false }
{
    let shape = pad_dims(WIDEST, pairs, dims).unwrap();
    let index = shape.index_of(linear);
    let read = moved_back(pairs, dims.as_slice(), index.as_slice())?;
    Some(dims.linear(read.as_slice()))
}

/// Returns each index less the zeroes before it; `None` if an index is outside the operand.
fn moved_back(pairs: &[(u64, u64)], sizes: &[u64], index: &[u64]) -> Option<PerAxis>
    requires sizes { length sizes.now ≡ length pairs.now }
    requires index { length index.now ≡ length pairs.now }
    requires few { length pairs.now ≤ highest_rank }
    ensures inside { IfSome result (λ read. is_inside pairs.now sizes.now index.now ≡ true) }
    ensures value { IfSome result (λ read. read.items ≡ moved_back pairs.now index.now) }
    ensures outside { IsNone result → is_inside pairs.now sizes.now index.now ≡ false }
{
    let mut read = PerAxis::new();
    for axis in 0..pairs.len() {
        let (before, _) = pairs[axis];
        if index[axis] < before || index[axis] - before >= sizes[axis] {
            return None;
        }
        read.push(index[axis] - before);
    }
    Some(read)
}
