//! What a reader knows of the inputs of a request: their tensors, or their dims alone. A contract
//! sees values that were not read as zeroes; `specs/private/Known` says so.

ghost use Rattle.std.specs.Prelude.{◌≡◌, IfOk};

use std::alloc::{AllocError, Global};
use std::marker::Model;
use tensor_ops::{Bounds, Dims, Inputs, Tensor};

/// A tensor whose values were read, or the dims of a tensor whose values were not.
#[derive(Drop)]
enum Known<'a> {
    Read(Tensor<'a>),
    Unread(Dims),
}

/// The tensor of an input, with or without its values.
#[derive(Drop)]
pub(crate) struct KnownTensor<'a> {
    known: Known<'a>,
}

impl<'a> Model for KnownTensor<'a> {
    ghost use Rattle.tensor_ops.specs.Contents.{Contents};

    ghost Value = { Contents };

    ghost use Rattle.expr_reader.specs.private.Known.{contents_of};

    ghost view = { λ t. contents_of t.known };
}

impl<'a> KnownTensor<'a> {
    ghost use Rattle.std.specs.Prelude.{◌≡◌, length, IfOk};
    ghost use Rattle.expr_reader.specs.private.Known.{zeroed};

    /// Returns a tensor with its values.
    pub(crate) fn read(tensor: Tensor<'a>) -> KnownTensor<'a>
        ensures { result ≡ tensor.entry }
    {
        KnownTensor {
            known: Known::Read(tensor),
        }
    }

    /// Returns a tensor of these dims without its values.
    pub(crate) fn unread(dims: Dims) -> KnownTensor<'a>
        ensures { result ≡ zeroed dims }
    {
        KnownTensor {
            known: Known::Unread(dims),
        }
    }

    /// Returns the dims.
    pub(crate) fn dims(&self) -> &Dims
        ensures { result.now ≡ self.now.dims }
    {
        match &self.known {
            Known::Read(tensor) => tensor.dims(),
            Known::Unread(dims) => dims,
        }
    }

    /// Returns how many values the tensor has.
    pub(crate) fn len(&self) -> usize
        ensures { result ≡ length self.now.values }
    {
        match &self.known {
            Known::Read(tensor) => tensor.values().len(),
            Known::Unread(dims) => dims.size() as usize,
        }
    }

    /// Returns the tensor. Values that were not read are zeroes.
    fn into_tensor(self, alloc: Global) -> Result<Tensor<'a>, AllocError>
        ensures { IfOk result (λ tensor. tensor ≡ self.entry) }
    {
        match self.known {
            Known::Read(tensor) => Ok(tensor),
            Known::Unread(dims) => {
                let zeroes = Vec::from_elem(alloc, 0i64, dims.size() as usize)?;
                Ok(Tensor::new(dims, zeroes))
            }
        }
    }
}

/// The inputs of a request, with or without their values, and the bounds of results over them.
#[derive(Drop)]
pub struct KnownInputs<'a> {
    /// The tensors in the order of their names.
    tensors: Vec<KnownTensor<'a>>,
    /// The bounds of results.
    bounds: Bounds,
}

impl<'a> Model for KnownInputs<'a> {
    ghost use Rattle.std.specs.Prelude.{length, ◌<◌, ◌^◌};
    ghost use Rattle.tensor_ops.specs.Legal.{IsPossible};
    ghost use Rattle.tensor_ops.specs.Contents.{Given, AreWithin};

    ghost Value = { Given };

    ghost view = { λ i. record { tensors = i.tensors.items; bounds = i.bounds } };

    ghost invariant = { λ i. (length i.tensors.items < 2 ^ 32)
        × (IsPossible i.bounds × AreWithin i.bounds i.tensors.items) };
}

impl<'a> KnownInputs<'a> {
    ghost use Rattle.std.specs.Prelude.{◌≡◌, ◌<◌, ◌^◌, length, IfOk, vec_len};
    ghost use Rattle.tensor_ops.specs.Legal.{IsPossible};
    ghost use Rattle.tensor_ops.specs.Contents.{AreWithin, input_of};

    /// Returns inputs from these tensors, in order. Results are within `bounds`.
    pub(crate) fn with_bounds(tensors: Vec<KnownTensor<'a>>, bounds: Bounds) -> KnownInputs<'a>
        requires few { vec_len tensors < 2 ^ 32 }
        requires limit { IsPossible bounds }
        requires bounds { AreWithin bounds tensors.items }
        ensures tensors { result.tensors ≡ tensors.entry.items }
        ensures limit { result.bounds ≡ bounds }
    {
        KnownInputs { tensors, bounds }
    }

    /// Returns the bounds of results.
    pub fn bounds(&self) -> Bounds
        ensures value { result ≡ self.now.bounds }
        ensures limit { IsPossible self.now.bounds }
    {
        self.bounds
    }

    /// Returns the number of inputs.
    pub fn len(&self) -> u32
        ensures { result ≡ length self.now.tensors }
    {
        self.tensors.len() as u32
    }

    /// Returns the dims of the input with this number.
    pub fn dims(&self, number: u32) -> &Dims
        requires { number < length self.now.tensors }
        ensures { result.now ≡ (input_of self.now.tensors number).dims }
    {
        self.tensors[number as usize].dims()
    }

    /// Returns the inputs with values. Values that were not read are zeroes.
    pub(crate) fn into_inputs(self, alloc: Global) -> Result<Inputs<'a>, AllocError>
        ensures { IfOk result (λ inputs. inputs ≡ self.entry) }
    {
        let tensors = into_tensors(alloc, self.tensors)?;
        Ok(Inputs::with_bounds(tensors, self.bounds))
    }
}

/// Returns tensors with their values. Values that were not read are zeroes.
fn into_tensors<'a>(
    alloc: Global,
    known: Vec<KnownTensor<'a>>,
) -> Result<Vec<Tensor<'a>>, AllocError>
    ensures { IfOk result (λ tensors. tensors.items ≡ known.entry.items) }
{
    let mut tensors = Vec::with_capacity(alloc, known.len())?;
    for one in known {
        let tensor = one.into_tensor(alloc)?;
        tensors.push(tensor)?;
    }
    Ok(tensors)
}
