//! Strided views: which places of an operand are read, in the order of the result's places. The
//! meaning is `reached` in `specs/View`; a change of it touches all crates that read through views.

ghost use Rattle.std.specs.Prelude.{◌≡◌, ◌<◌, ◌^◌, ℕ, map, IfOk};
ghost use Rattle.tensor_views.specs.Places.{places_of, AreBelow};
ghost use Rattle.tensor_views.specs.View.{view_size, reached};

use crate::axis::{Axis, steps_to};
use crate::listed_places::looked_up;
use crate::places::Places;
use crate::run_places::places_in_run;
use std::alloc::{AllocError, Global};

/// A view that owns its axes: a start, and axes with a size, a step and a direction each.
#[derive(Drop)]
pub struct View {
    /// The operand's place from which the steps of all axes count.
    pub start: usize,
    /// The axes, the fastest first.
    pub axes: Vec<Axis>,
}

/// A view that borrows its axes.
#[derive(Clone, Copy, Drop)]
pub struct ViewRef<'a> {
    /// The operand's place from which the steps of all axes count.
    pub start: usize,
    /// The axes, the fastest first.
    pub axes: &'a [Axis],
}

/// A list that is read along a view.
#[derive(Clone, Copy, Drop)]
pub struct Reading<'a> {
    /// The values of the operand.
    pub list: &'a [i64],
    /// The view that says which values are read.
    pub view: ViewRef<'a>,
}

impl View {
    /// Returns this view with borrowed axes.
    #[inline(always)]
    pub fn as_ref(&self) -> ViewRef<'_>
        ensures start { result.start ≡ self.now.start }
        ensures axes { result.axes.now ≡ self.now.axes.items }
    {
        ViewRef {
            start: self.start,
            axes: self.axes.as_slice(),
        }
    }
}

impl ViewRef<'_> {
    /// Returns a copy that owns its axes.
    pub fn copied(self, alloc: Global) -> Result<View, AllocError>
        ensures start { IfOk result (λ v. v.start ≡ self.entry.start) }
        ensures axes { IfOk result (λ v. v.axes.items ≡ self.entry.axes.now) }
    {
        let mut axes = Vec::with_capacity(alloc, self.axes.len())?;
        axes.extend_from_slice(self.axes)?;
        Ok(View {
            start: self.start,
            axes,
        })
    }

    /// Returns the number of places that the view reads.
    pub fn size(self) -> usize
        requires some { 0 < view_size self.axes.now }
        requires fits { view_size self.axes.now < 2 ^ 32 }
        ensures { result ≡ view_size self.entry.axes.now }
    {
        let mut places = 1;
        for axis in self.axes {
            places *= axis.size;
        }
        places
    }

    /// Returns the operand's place for a place of the view, by one division for each axis.
    #[inline(always)]
    pub(crate) fn at(self, place: usize) -> usize
        requires within { place < view_size self.axes.now }
        requires fits { reached self.start self.axes.now place < 2 ^ 32 }
        ensures { result ≡ reached self.entry.start self.entry.axes.now place }
    {
        let mut rest = place;
        let mut reached = 0;
        for axis in self.axes {
            reached += steps_to(*axis, rest % axis.size) * axis.step;
            rest /= axis.size;
        }
        self.start + reached
    }

    /// Returns the operand's place for each of some places of the view.
    pub fn places(self, alloc: Global, places: &Places<'_>) -> Result<Vec<u32>, AllocError>
        requires within { AreBelow places.now (view_size self.axes.now) }
        requires fits { (p : ℕ) → p < view_size self.axes.now
            → reached self.start self.axes.now p < 2 ^ 32 }
        ensures { IfOk result (λ v. v.items
            ≡ map (reached self.entry.start self.entry.axes.now) (places_of places.now)) }
    {
        match places {
            Places::Run(first, last) => places_in_run(alloc, self, *first, *last),
            Places::Listed(places) => looked_up(alloc, self, places),
        }
    }
}
