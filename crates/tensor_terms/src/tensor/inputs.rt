//! The inputs of an expression: a list of tensors, and the bounds of results over them. A change of
//! the bounds touches what a request may ask for, which expr_reader decides.

ghost use Rattle.std.specs.Prelude.{◌≡◌, ◌<◌, ◌≤◌, ◌-◌, ◌^◌, ◌∷◌, [], ◌++◌, ◌↔◌, ◌⊎◌, length};
ghost use Rattle.std.specs.Prelude.{IsTrue, IfOk};
ghost use Rattle.std.specs.Prelude.{OnOk, OnErr, vec_len};
ghost use Rattle.std.specs.Prelude.{slice_set};
ghost use Rattle.tensor_shape.specs.Legal.{highest_rank, text_bounds, widest, IsPossible, IsWithin};
ghost use Rattle.tensor_terms.specs.Contents.{input_of, AreWithin};
ghost use Rattle.tensor_terms.specs.Freed.{freed};

use crate::tensor::Tensor;
use std::alloc::{AllocError, Global};
use std::marker::Model;
use tensor_shape::{Bounds, Dims, WIDEST};

/// The highest rank of results over inputs that [`Inputs::new`] makes.
const RANK_LIMIT: u32 = 6;

/// A list of tensors, numbered from 0, and the bounds of the results of expressions over them. Each
/// tensor is itself within the bounds.
#[derive(Drop)]
pub struct Inputs<'a> {
    /// The tensors in order of their numbers.
    tensors: Vec<Tensor<'a>>,
    /// The bounds of results.
    bounds: Bounds,
}

impl<'a> Model for Inputs<'a> {
    ghost use Rattle.std.specs.Prelude.{length, ◌<◌, ◌^◌};
    ghost use Rattle.tensor_shape.specs.Legal.{IsPossible};
    ghost use Rattle.tensor_terms.specs.Contents.{Given, AreWithin};

    ghost Value = { Given };

    ghost view = { λ i. record { tensors = i.tensors.items; bounds = i.bounds } };

    ghost invariant = { λ i. (length i.tensors.items < 2 ^ 32)
        × (IsPossible i.bounds × AreWithin i.bounds i.tensors.items) };
}

impl<'a> Inputs<'a> {
    /// Returns inputs from these tensors, in order. Results have at most rank 6 and at most
    /// `TEXT_ELEMENTS` elements.
    pub fn new(tensors: Vec<Tensor<'a>>) -> Inputs<'a>
        requires few { vec_len tensors < 2 ^ 32 }
        requires bounds { AreWithin (text_bounds 6) tensors.items }
        ensures tensors { result.tensors ≡ tensors.entry.items }
        ensures limit { result.bounds ≡ text_bounds 6 }
    {
        Inputs::with_rank(tensors, RANK_LIMIT)
    }

    /// Returns inputs from these tensors, in order. Results have at most the given rank, which is 6
    /// or 8, and at most `TEXT_ELEMENTS` elements.
    pub fn with_rank(tensors: Vec<Tensor<'a>>, limit: u32) -> Inputs<'a>
        requires few { vec_len tensors < 2 ^ 32 }
        requires limit { (limit ≡ 6) ⊎ (limit ≡ 8) }
        requires bounds { AreWithin (text_bounds limit) tensors.items }
        ensures tensors { result.tensors ≡ tensors.entry.items }
        ensures limit { result.bounds ≡ text_bounds limit }
    {
        Inputs::with_bounds(tensors, Bounds::of_text(limit as usize))
    }

    /// Returns inputs from these tensors, in order. Results are within `bounds`.
    pub fn with_bounds(tensors: Vec<Tensor<'a>>, bounds: Bounds) -> Inputs<'a>
        requires few { vec_len tensors < 2 ^ 32 }
        requires limit { IsPossible bounds }
        requires bounds { AreWithin bounds tensors.items }
        ensures tensors { result.tensors ≡ tensors.entry.items }
        ensures limit { result.bounds ≡ bounds }
    {
        Inputs { tensors, bounds }
    }

    /// Returns the highest rank of results.
    pub fn rank_limit(&self) -> u32
        ensures value { result ≡ self.now.bounds.rank }
        ensures limit { self.now.bounds.rank ≤ highest_rank }
    {
        self.bounds.rank as u32
    }

    /// Returns the bounds of results.
    pub fn bounds(&self) -> Bounds
        ensures value { result ≡ self.now.bounds }
        ensures limit { IsPossible self.now.bounds }
    {
        self.bounds
    }

    /// Returns the number of inputs.
    pub fn len(&self) -> u32
        ensures { result ≡ length self.now.tensors }
    {
        self.tensors.len() as u32
    }

    /// Whether there are no inputs.
    pub fn is_empty(&self) -> bool
        ensures { IsTrue result ↔ (length self.now.tensors ≡ 0) }
    {
        self.tensors.is_empty()
    }

    /// Returns the tensor with this number.
    pub fn get(&self, number: u32) -> &Tensor<'a>
        requires { number < length self.now.tensors }
        ensures { result.now ≡ input_of self.now.tensors number }
    {
        &self.tensors[number as usize]
    }

    /// Returns inputs that borrow the values of these tensors, with equal bounds. Allocates only
    /// the list of tensors; fails if that allocation fails.
    pub fn lent(&self, alloc: Global) -> Result<Inputs<'_>, AllocError>
        ensures { IfOk result (λ r. r ≡ self.now) }
    {
        let mut tensors = Vec::with_capacity(alloc, self.tensors.len())?;
        for tensor in &self.tensors {
            tensors.push_reserved(Tensor::lent(tensor.dims().copied(), tensor.values()));
        }
        Ok(Inputs {
            tensors,
            bounds: self.bounds,
        })
    }

    /// Appends a tensor, whose number is the old length. If the allocation fails, nothing changes.
    pub fn push(&mut self, tensor: Tensor<'a>) -> Result<(), AllocError>
        requires few { length self.old.tensors < 2 ^ 32 - 1 }
        requires bounds { IsWithin self.old.bounds tensor.dims }
        ensures ok { OnOk result (self.new.tensors ≡ self.old.tensors ++ tensor.entry ∷ []) }
        ensures err { OnErr result (self.new ≡ self.old) }
        ensures limit { self.new.bounds ≡ self.old.bounds }
    {
        self.tensors.push(tensor)?;
        Ok(())
    }

    /// Returns the inputs with the widest bounds that any dims may have.
    pub fn widened(self) -> Inputs<'a>
        ensures tensors { result.tensors ≡ self.entry.tensors }
        ensures limit { result.bounds ≡ widest }
    {
        Inputs {
            tensors: self.tensors,
            bounds: WIDEST,
        }
    }

    /// Frees the values of a tensor. Its number then names a tensor of rank 0 with the value 0,
    /// which needs no allocation.
    pub fn free(&mut self, number: u32)
        requires { number < length self.old.tensors }
        ensures tensors { self.new.tensors ≡ slice_set self.old.tensors number freed }
        ensures limit { self.new.bounds ≡ self.old.bounds }
    {
        self.tensors[number as usize] = freed();
    }
}

/// Returns the tensor that stands in the place of a freed tensor.
fn freed<'a>() -> Tensor<'a>
    ensures { result ≡ freed }
{
    let Ok(dims) = Dims::new(&[]) else {
        unreachable!();
    };
    Tensor::lent(dims, &[0])
}
