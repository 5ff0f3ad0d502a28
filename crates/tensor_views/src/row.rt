//! Parts of rows, which are runs of places along one axis. The gathers of tensor_loops read them.

ghost use Rattle.std.specs.Prelude.{◌≡◌, ℕ};
ghost use Rattle.tensor_views.specs.View.{place_in, IsRowIn};

use crate::axis::Axis;

/// A part of a row: `count` places along an axis, from index `from` on.
#[derive(Clone, Copy, Drop)]
pub struct Row {
    /// The place from which the steps of the axis count.
    pub start: usize,
    /// The axis.
    pub axis: Axis,
    /// The first index.
    pub from: usize,
    /// The number of places.
    pub count: usize,
}

impl Row {
    /// Returns a row that reads place 0 `count` times.
    pub fn repeated(count: usize) -> Self
        ensures row { IsRowIn result 1 }
        ensures count { result.count ≡ count }
        ensures first { (k : ℕ) → place_in result k ≡ 0 }
    {
        Row {
            start: 0,
            axis: Axis {
                size: count,
                step: 0,
                reversed: false,
            },
            from: 0,
            count,
        }
    }

    /// Returns a row of the places in `[0, count)`.
    pub fn whole(count: usize) -> Self
        ensures row { IsRowIn result count }
        ensures count { result.count ≡ count }
        ensures each { (k : ℕ) → place_in result k ≡ k }
    {
        Row {
            start: 0,
            axis: Axis {
                size: count,
                step: 1,
                reversed: false,
            },
            from: 0,
            count,
        }
    }

    /// Returns this part of a row. The arguments give the step and direction of its axis again, so
    /// that the compiler knows them where the caller passes constants.
    #[inline(always)]
    pub fn known(self, step: usize, reversed: bool) -> Self
        requires step { self.axis.step ≡ step }
        requires way { self.axis.reversed ≡ reversed }
        ensures { result ≡ self }
    {
        Row {
            start: self.start,
            axis: self.axis.known(step, reversed),
            from: self.from,
            count: self.count,
        }
    }
}
