//! A tensor: dims, and values that it owns or borrows. Contracts see it as `Contents`. A change
//! touches `specs/Contents`, in which no definition knows where the values lie.

pub(crate) mod inputs;
pub(crate) mod tensors;

ghost use Rattle.std.specs.Prelude.{◌≡◌, List, ℕ, ℤ, length};
ghost use Rattle.tensor_shape.specs.Index.{size_of, IsIndexOf};
ghost use Rattle.tensor_terms.specs.Contents.{value_at};

use std::alloc::Global;
use std::borrow::CowSlice;
use std::marker::Model;
use tensor_shape::Dims;

/// Values of the `i64` range at all index lists of some dims, column-major: the first index is the
/// fastest. The tensor owns its values or borrows them.
#[derive(Drop)]
pub struct Tensor<'a> {
    /// The dims.
    dims: Dims,
    /// The values in order of their places.
    values: CowSlice<'a, i64, Global>,
}

impl<'a> Model for Tensor<'a> {
    ghost use Rattle.std.specs.Prelude.{◌≡◌, length};
    ghost use Rattle.std.specs.Cow.{cow_slice_items};
    ghost use Rattle.tensor_shape.specs.Index.{size_of};
    ghost use Rattle.tensor_terms.specs.Contents.{Contents};

    ghost Value = { Contents };

    ghost view = { λ t. record { dims = t.dims; values = cow_slice_items t.values } };

    ghost invariant = { λ t. length (cow_slice_items t.values) ≡ size_of t.dims };
}

impl<'a> Tensor<'a> {
    /// Returns the tensor that owns these values, in order of their places. The first index is the
    /// fastest.
    pub fn new(dims: Dims, values: Vec<i64>) -> Tensor<'a>
        requires { length values.items ≡ size_of dims }
        ensures dims { result.dims ≡ dims }
        ensures values { result.values ≡ values.items }
    {
        Tensor {
            dims,
            values: CowSlice::Owned(values),
        }
    }

    /// Returns the tensor that borrows these values, in order of their places. Copies no value and
    /// allocates nothing. The first index is the fastest.
    pub fn lent(dims: Dims, values: &'a [i64]) -> Tensor<'a>
        requires { length values.now ≡ size_of dims }
        ensures dims { result.dims ≡ dims }
        ensures values { result.values ≡ values.now }
    {
        Tensor {
            dims,
            values: CowSlice::Borrowed(values),
        }
    }

    /// Returns the dims.
    pub fn dims(&self) -> &Dims
        ensures { result.now ≡ self.now.dims }
    {
        &self.dims
    }

    /// Returns the values in order of their places: as many as the size of the dims.
    pub fn values(&self) -> &[i64]
        ensures value { result.now ≡ self.now.values }
        ensures full { length self.now.values ≡ size_of self.now.dims }
    {
        self.values.as_slice()
    }

    /// Returns the value at an index list.
    pub fn value_at(&self, index: &[u64]) -> i64
        requires { IsIndexOf self.now.dims index.now }
        ensures { result ≡ value_at self.now index.now }
    {
        let place = self.dims.linear(index) as usize;
        self.values.as_slice()[place]
    }
}
