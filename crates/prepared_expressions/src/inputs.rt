//! Reads the dims of the inputs of a record, and gives each input the values of an array.
//! `specs/private/Dealing` defines this; `write_dims` in `prepared.rt` writes the dims.

ghost use Rattle.std.specs.Prelude.{◌≡◌, ◌⊎◌, ◌≤◌, Ok, Err, IfOk, MatchResult, length};
ghost use Rattle.expr_reader.specs.Arrays.{arrays_under};
ghost use Rattle.tensor_shape.specs.Legal.{IsPossible};
ghost use Rattle.prepared_expressions.specs.private.Dealing.{all_from, one_from};

use crate::refusal::Refusal;
use expr_reader::Array;
use std::alloc::Global;
use tensor_shape::{Bounds, Dims};
use tensor_terms::Tensor;

/// The tensors of the inputs, and the numbers after their dims.
#[derive(Drop)]
pub(crate) struct Dealt<'n, 'a> {
    pub(crate) tensors: Vec<Tensor<'a>>,
    pub(crate) rest: &'n [u64],
}

/// The tensor of one input, and the numbers after its dims.
#[derive(Drop)]
pub(crate) struct DealtOne<'n, 'a> {
    pub(crate) tensor: Tensor<'a>,
    pub(crate) rest: &'n [u64],
}

/// Makes the tensor of each array. Its dims are read from the first numbers, in the order of the
/// arrays.
pub(crate) fn read_tensors<'n, 'a>(
    alloc: Global,
    bounds: Bounds,
    numbers: &'n [u64],
    arrays: &[Array<'a>],
) -> Result<Dealt<'n, 'a>, Refusal>
    requires { IsPossible bounds }
    ensures tensors { MatchResult result
        (λ d. all_from bounds (arrays_under arrays.now) numbers.now
        ≡ Ok (record { tensors = d.tensors.items; rest = d.rest.now }))
        (λ f. (f ≡ Refusal.NoMemory)
        ⊎ (all_from bounds (arrays_under arrays.now) numbers.now ≡ Err f)) }
{
    let mut tensors = Vec::with_capacity(alloc, arrays.len())?;
    let mut rest = numbers;
    for array in arrays {
        let one = read_tensor(bounds, rest, array.values)?;
        rest = one.rest;
        let Ok(()) = tensors.push(one.tensor) else {
            return Err(Refusal::NoMemory);
        };
    }
    Ok(Dealt { tensors, rest })
}

/// Makes a tensor that borrows these values. Its dims are read from the first numbers: a rank, and
/// then the dimensions.
fn read_tensor<'n, 'a>(
    bounds: Bounds,
    numbers: &'n [u64],
    values: &'a [i64],
) -> Result<DealtOne<'n, 'a>, Refusal>
    requires { IsPossible bounds }
    ensures { MatchResult result
        (λ one. one_from bounds values.now numbers.now
        ≡ Ok (record { tensor = one.tensor; rest = one.rest.now }))
        (λ f. one_from bounds values.now numbers.now ≡ Err f) }
{
    let [count, behind @ ..] = numbers else {
        return Err(Refusal::NoRecord);
    };
    if *count > behind.len() as u64 {
        return Err(Refusal::NoRecord);
    }
    let (sizes, rest) = behind.split_at(*count as usize);
    let Ok(dims) = Dims::within(bounds, sizes) else {
        return Err(Refusal::NoRecord);
    };
    if values.len() as u64 != dims.size() {
        return Err(Refusal::OtherArrays);
    }
    Ok(DealtOne {
        tensor: Tensor::lent(dims, values),
        rest,
    })
}
