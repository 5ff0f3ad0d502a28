//! `Dims`, which contracts see as its list of sizes, and its column-major places. A change of the
//! layout touches `specs/Index`, and tensor_views and tensor_scans, which compute with strides too.

ghost use Rattle.std.specs.Prelude.{◌≡◌, ◌<◌, ◌≤◌, ◌↔◌, ℕ, List, length, take, slice_index};
ghost use Rattle.std.specs.Prelude.{Ok, Err, IsTrue, OnOk, IfOk};
ghost use Rattle.tensor_shape.specs.Index.{size_of, IsIndexOf, strides_from, place, index_of};
ghost use Rattle.tensor_shape.specs.Legal.{highest_rank, most_elements, text_elements};
ghost use Rattle.tensor_shape.specs.Legal.{text_bounds, bulk_of, IsPossible, IsWithin, IsLegal};

use crate::MAX_RANK;
use crate::bounds::Bounds;
use crate::shape_fault::ShapeFault;
use arrayvec::ArrayVec;
use std::marker::Model;

/// One number for each axis, held in place without an allocation.
pub type PerAxis = ArrayVec<u64, MAX_RANK>;

/// The dimensions of a tensor, the fastest axis first. They are legal: the rank is at most
/// [`MAX_RANK`](crate::MAX_RANK), and their product, a 0 counted as 1, at most
/// [`MAX_ELEMENTS`](crate::MAX_ELEMENTS).
#[derive(Drop)]
pub struct Dims {
    sizes: PerAxis,
}

impl Model for Dims {
    ghost use Rattle.std.specs.Prelude.{ℕ, List};
    ghost use Rattle.tensor_shape.specs.Legal.{IsLegal};

    ghost Value = { List ℕ };

    ghost view = { λ d. d.sizes.items };

    ghost invariant = { λ d. IsLegal d.sizes.items };
}

impl Dims {
    /// Returns dims of the given sizes, the fastest axis first, if they are within the limits of a
    /// request text of rank [`MAX_RANK`](crate::MAX_RANK). Allocates nothing.
    pub fn new(sizes: &[u64]) -> Result<Dims, ShapeFault>
        ensures ok { IfOk result (λ dims. (dims ≡ sizes.now)
            × IsWithin (text_bounds highest_rank) sizes.now) }
        ensures rank { (result ≡ Err ShapeFault.RankTooHigh) ↔ (highest_rank < length sizes.now) }
        ensures elements { (result ≡ Err ShapeFault.TooManyElements)
            ↔ ((length sizes.now ≤ highest_rank) × (text_elements < bulk_of sizes.now)) }
    {
        Dims::within(Bounds::of_text(MAX_RANK), sizes)
    }

    /// Returns dims of the given sizes, the fastest axis first, if they are within `bounds`.
    /// Allocates nothing.
    pub fn within(bounds: Bounds, sizes: &[u64]) -> Result<Dims, ShapeFault>
        requires { IsPossible bounds }
        ensures ok { IfOk result (λ dims. (dims ≡ sizes.now) × IsWithin bounds sizes.now) }
        ensures rank { (result ≡ Err ShapeFault.RankTooHigh) ↔ (bounds.rank < length sizes.now) }
        ensures elements { (result ≡ Err ShapeFault.TooManyElements)
            ↔ ((length sizes.now ≤ bounds.rank) × (bounds.elements < bulk_of sizes.now)) }
    {
        if sizes.len() > bounds.rank {
            return Err(ShapeFault::RankTooHigh);
        }
        if !holds_few(bounds.elements, sizes) {
            return Err(ShapeFault::TooManyElements);
        }
        Ok(Dims { sizes: held(sizes) })
    }

    /// Returns a copy. Unlike `clone`, it allocates nothing and can't fail.
    pub fn copied(&self) -> Dims
        ensures { result ≡ self.now }
    {
        let sizes = self.sizes.as_slice();
        Dims { sizes: held(sizes) }
    }

    /// Returns the sizes of the axes, the fastest axis first.
    pub fn as_slice(&self) -> &[u64]
        ensures value { result.now ≡ self.now }
        ensures legal { IsLegal self.now }
    {
        self.sizes.as_slice()
    }

    /// Returns the number of axes.
    pub fn rank(&self) -> usize
        ensures value { result ≡ length self.now }
        ensures small { result ≤ highest_rank }
    {
        self.sizes.len()
    }

    /// Returns the size of one axis.
    pub fn dim(&self, axis: usize) -> u64
        requires { axis < length self.now }
        ensures { result ≡ slice_index self.now axis }
    {
        self.sizes[axis]
    }

    /// Returns the number of elements: the product of the sizes, which is 1 at rank 0.
    pub fn size(&self) -> u64
        ensures value { result ≡ size_of self.now }
        ensures small { result ≤ most_elements }
    {
        product(self.sizes.as_slice())
    }

    /// Returns the distance between neighbouring places along an axis: the product of the sizes of
    /// the axes before it.
    pub fn stride(&self, axis: usize) -> u64
        requires { axis < length self.now }
        ensures { result ≡ size_of (take axis self.now) }
    {
        product(&self.sizes.as_slice()[..axis])
    }

    /// Returns the stride of each axis. Allocates nothing.
    pub fn strides(&self) -> PerAxis
        ensures { result.items ≡ strides_from 1 self.now }
    {
        strides_of(self.sizes.as_slice())
    }

    /// Returns the place of an index list, which has one index for each axis, below the size of
    /// that axis.
    pub fn linear(&self, index: &[u64]) -> u64
        requires { IsIndexOf self.now index.now }
        ensures value { result ≡ place self.now index.now }
        ensures below { result < size_of self.now }
        ensures back { index_of self.now result ≡ index.now }
    {
        place_of(self.sizes.as_slice(), index)
    }

    /// Returns the index list of a place. Allocates nothing.
    pub fn index_of(&self, linear: u64) -> PerAxis
        requires { linear < size_of self.now }
        ensures value { result.items ≡ index_of self.now linear }
        ensures index { IsIndexOf self.now result.items }
        ensures back { place self.now result.items ≡ linear }
    {
        index_at(self.sizes.as_slice(), linear)
    }
}

/// Copies the sizes into an in-place list.
fn held(sizes: &[u64]) -> PerAxis
    requires { length sizes.now ≤ highest_rank }
    ensures { result.items ≡ sizes.now }
{
    match ArrayVec::try_from(sizes) {
        Ok(held) => held,
        Err(_) => unreachable!(),
    }
}

/// Whether the product of the sizes, a 0 counted as 1, is at most `limit`. No product overflows.
fn holds_few(limit: u64, sizes: &[u64]) -> bool
    ensures { IsTrue result ↔ (bulk_of sizes.now ≤ limit) }
{
    let mut bulk: u64 = 1;
    for size in sizes {
        let factor = (*size).max(1);
        if factor > limit / bulk {
            return false;
        }
        bulk *= factor;
    }
    bulk <= limit
}

/// Returns the product of the sizes, 1 for no sizes.
fn product(sizes: &[u64]) -> u64
    requires { bulk_of sizes.now ≤ most_elements }
    ensures { result ≡ size_of sizes.now }
{
    let mut product: u64 = 1;
    for size in sizes {
        product *= *size;
    }
    product
}

/// Returns the place of an index list by Horner's rule, from the slowest axis: one multiplication
/// for each axis.
fn place_of(sizes: &[u64], index: &[u64]) -> u64
    requires legal { bulk_of sizes.now ≤ most_elements }
    requires index { IsIndexOf sizes.now index.now }
    ensures { result ≡ place sizes.now index.now }
{
    let mut place: u64 = 0;
    for axis in (0..sizes.len()).rev() {
        place = place * sizes[axis] + index[axis];
    }
    place
}

/// Returns the strides: 1, and then each stride times the size of its axis.
fn strides_of(sizes: &[u64]) -> PerAxis
    requires { IsLegal sizes.now }
    ensures { result.items ≡ strides_from 1 sizes.now }
{
    let mut strides = PerAxis::new();
    let mut stride: u64 = 1;
    for size in sizes {
        strides.push(stride);
        stride *= *size;
    }
    strides
}

/// Returns the index list of a place: the remainder by each size, and then the quotient.
fn index_at(sizes: &[u64], linear: u64) -> PerAxis
    requires rank { length sizes.now ≤ highest_rank }
    requires below { linear < size_of sizes.now }
    ensures { result.items ≡ index_of sizes.now linear }
{
    let mut index = PerAxis::new();
    let mut rest = linear;
    for size in sizes {
        index.push(rest % *size);
        rest /= *size;
    }
    index
}
