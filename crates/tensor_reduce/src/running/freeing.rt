//! Frees tensors that no step left reads. An empty tensor takes the place of each, so that the
//! others keep their numbers. What must still be held is defined in specs/private/Held.

ghost use Rattle.std.specs.Prelude.{◌≡◌, ◌+◌, ◌<◌, ◌≤◌, ◌^◌, ◌++◌, List, [], length, slice_set};
ghost use Rattle.std.specs.Prelude.{vec_capacity};
ghost use Rattle.tensor_ops.specs.Contents.{Contents};
ghost use Rattle.tensor_reduce.specs.private.Held.{AreHeld, AreFreed, HasMore};

use crate::cutting::NUMBERS;
use crate::schedule::readers::are_reading;
use crate::step::Step;
use std::alloc::Global;
use tensor_ops::{Dims, Inputs, Tensor};

/// Appends `count` empty tensors, for steps that were fused and so have no tensor.
pub(crate) fn push_freed(alloc: Global, tensors: &mut Vec<Tensor<'static>>, count: usize)
    requires { length tensors.old.items + count ≤ vec_capacity tensors.old }
    ensures more { HasMore count tensors.old.items tensors.new.items }
    ensures capacity { vec_capacity tensors.new ≡ vec_capacity tensors.old }
{
    for _ in 0..count {
        tensors.push_reserved(freed(alloc));
    }
}

/// Frees the tensors that no step left reads, from the last but one back to the nearest one that is
/// read. Earlier ones needn't be looked at: an expression is a tree, so its steps are read in
/// reverse order.
pub(crate) fn free_unread(
    alloc: Global,
    left: &[Step],
    inputs: &Inputs,
    tensors: &mut Vec<Tensor<'static>>,
)
    ensures held { (whole : List Contents)
        → AreHeld left.now whole (inputs.now.tensors ++ tensors.old.items)
        → AreHeld left.now whole (inputs.now.tensors ++ tensors.new.items) }
    ensures freed { length inputs.now.tensors + length tensors.old.items ≤ 2 ^ 32
        → AreFreed left.now inputs.now.tensors tensors.new.items }
    ensures len { length tensors.new.items ≡ length tensors.old.items }
    ensures capacity { vec_capacity tensors.new ≡ vec_capacity tensors.old }
{
    let first = u64::from(inputs.len());
    for behind in 1..tensors.len() {
        let place = tensors.len() - 1 - behind;
        if !tensors[place].values().is_empty() {
            let number = first + place as u64;
            if number >= NUMBERS || are_reading(left, number as u32) {
                return;
            }
            put(tensors, place, freed(alloc));
        }
    }
}

/// Replaces a tensor by another one, and frees it.
fn put(tensors: &mut Vec<Tensor<'static>>, place: usize, tensor: Tensor<'static>)
    requires { place < length tensors.old.items }
    ensures items { tensors.new.items ≡ slice_set tensors.old.items place tensor.entry }
    ensures capacity { vec_capacity tensors.new ≡ vec_capacity tensors.old }
{
    tensors[place] = tensor;
}

/// Returns a tensor that holds no memory.
fn freed(alloc: Global) -> Tensor<'static>
    ensures { result.values ≡ [] }
{
    let Ok(dims) = Dims::new(&[0]) else {
        unreachable!()
    };
    Tensor::new(dims, Vec::new(alloc))
}
