//! Reads the tensors of a request, in the three forms that they have in a text, in a frame, and
//! beside arrays. They are defined in `specs/Tensors`, `Frame` and `Arrays`.

ghost use Rattle.std.specs.Prelude.{◌≡◌, ◌≤◌, ℤ, pos, List, length, replicate, IfOk, IfSome};
ghost use Rattle.serde_json.specs.View.{view};
ghost use Rattle.tensor_ops.specs.Index.{size_of};
ghost use Rattle.tensor_ops.specs.Legal.{IsPossible, IsWithin};
ghost use Rattle.expr_reader.specs.Arrays.{array_tensor};
ghost use Rattle.expr_reader.specs.Frame.{framed_tensor};
ghost use Rattle.expr_reader.specs.private.Known.{taken};
ghost use Rattle.expr_reader.specs.private.Outcome.{IsReadOr};
ghost use Rattle.expr_reader.specs.Tensors.{dims_in, values_in, tensor_in};

use crate::fault::Fault;
use crate::fields::has_members;
use crate::items::read_list;
use crate::known::KnownTensor;
use arrayvec::ArrayVec;
use serde_json::Value;
use std::alloc::Global;
use tensor_ops::{Bounds, Dims, MAX_RANK, Tensor};

/// Reads a tensor of a text: an object of exactly `dims` and `data`. Its values are copied.
pub(crate) fn read_tensor(
    alloc: Global,
    value: &Value,
    bounds: Bounds,
) -> Result<KnownTensor<'static>, Fault>
    requires { IsPossible bounds }
    ensures tensor { IsReadOr Fault.BadTensor (λ t. t) (tensor_in bounds (view value.now)) result }
    ensures bounds { IfOk result (λ t. IsWithin bounds t.dims) }
{
    if !has_members(value, 2) {
        return Err(Fault::BadTensor);
    }
    let dims = value.get("dims").ok_or(Fault::BadTensor)?;
    let values = value.get("data").ok_or(Fault::BadTensor)?;
    let dims = read_dims(dims, bounds).ok_or(Fault::BadTensor)?;
    let values = read_values(alloc, values, dims.size())?;
    Ok(KnownTensor::read(Tensor::new(dims, values)))
}

/// Reads a tensor of a frame: an object of exactly `dims`. It borrows the first of `values`, one
/// for each place.
pub(crate) fn read_framed_tensor<'a>(
    value: &Value,
    bounds: Bounds,
    values: &'a [i64],
) -> Result<KnownTensor<'a>, Fault>
    requires { IsPossible bounds }
    ensures tensor { IsReadOr Fault.BadTensor (λ t. t)
        (framed_tensor bounds values.now (view value.now)) result }
    ensures bounds { IfOk result (λ t. IsWithin bounds t.dims) }
    ensures few { IfOk result (λ t. length t.values ≤ length values.now) }
{
    let dims = read_framed_dims(value, bounds, values.len())?;
    let size = dims.size() as usize;
    Ok(KnownTensor::read(Tensor::lent(dims, &values[..size])))
}

/// Reads a tensor of a frame whose values are not read. It takes the first of `count` values, one
/// for each place.
pub(crate) fn read_unread_tensor<'a>(
    value: &Value,
    bounds: Bounds,
    count: usize,
) -> Result<KnownTensor<'a>, Fault>
    requires { IsPossible bounds }
    ensures tensor { IsReadOr Fault.BadTensor (λ t. t)
        (framed_tensor bounds (replicate count (pos 0)) (view value.now)) result }
    ensures bounds { IfOk result (λ t. IsWithin bounds t.dims) }
    ensures few { IfOk result (λ t. length t.values ≤ length (replicate count (pos 0))) }
{
    let dims = read_framed_dims(value, bounds, count)?;
    Ok(KnownTensor::unread(dims))
}

/// Reads the dims of a tensor of a frame, which may have at most `count` places.
fn read_framed_dims(value: &Value, bounds: Bounds, count: usize) -> Result<Dims, Fault>
    requires { IsPossible bounds }
    ensures dims { (values : List ℤ) → length values ≡ count
        → IsReadOr Fault.BadTensor (taken values) (framed_tensor bounds values (view value.now)) result }
    ensures bounds { IfOk result (λ dims. IsWithin bounds dims) }
    ensures few { IfOk result (λ dims. size_of dims ≤ count) }
{
    if !has_members(value, 1) {
        return Err(Fault::BadTensor);
    }
    let dims = value.get("dims").ok_or(Fault::BadTensor)?;
    let dims = read_dims(dims, bounds).ok_or(Fault::BadTensor)?;
    if dims.size() > count as u64 {
        return Err(Fault::BadTensor);
    }
    Ok(dims)
}

/// Reads a tensor with an array of its own: an object of exactly `dims`. It borrows all of
/// `values`, one for each place.
pub(crate) fn read_array_tensor<'a>(
    value: &Value,
    bounds: Bounds,
    values: &'a [i64],
) -> Result<KnownTensor<'a>, Fault>
    requires { IsPossible bounds }
    ensures tensor { IsReadOr Fault.BadTensor (λ t. t)
        (array_tensor bounds values.now (view value.now)) result }
    ensures bounds { IfOk result (λ t. IsWithin bounds t.dims) }
{
    let tensor = read_framed_tensor(value, bounds, values)?;
    if tensor.len() == values.len() {
        Ok(tensor)
    } else {
        Err(Fault::BadTensor)
    }
}

/// Reads dims within these bounds. It allocates nothing, however long the list is.
fn read_dims(value: &Value, bounds: Bounds) -> Option<Dims>
    requires { IsPossible bounds }
    ensures dims { result ≡ dims_in bounds (view value.now) }
    ensures bounds { IfSome result (λ dims. IsWithin bounds dims) }
{
    let list = value.as_array()?;
    if list.len() > bounds.rank {
        return None;
    }
    let mut sizes: ArrayVec<u64, MAX_RANK> = ArrayVec::new();
    for size in list {
        sizes.push(size.as_u64()?);
    }
    Dims::within(bounds, sizes.as_slice()).ok()
}

/// Reads an array of `size` whole numbers of the `i64` range.
fn read_values(alloc: Global, value: &Value, size: u64) -> Result<Vec<i64>, Fault>
    ensures { IsReadOr Fault.BadTensor (λ values. values.items)
        (values_in size (view value.now)) result }
{
    let list = value.as_array().ok_or(Fault::BadTensor)?;
    if list.len() as u64 != size {
        return Err(Fault::BadTensor);
    }
    read_list(alloc, value, Fault::BadTensor)
}
