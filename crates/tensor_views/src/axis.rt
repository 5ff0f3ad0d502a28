//! One axis of a view. A change of the fields touches `specs/View`, `specs/Forward` and the loops
//! of tensor_loops.

ghost use Rattle.std.specs.Prelude.{◌≡◌, ◌<◌, ◌+◌, ◌*◌, ◌^◌};
ghost use Rattle.tensor_views.specs.View.{steps_to};

/// One axis of a view: along it, `size` places of the operand lie `step` apart.
#[derive(Clone, Copy, Drop)]
pub struct Axis {
    /// The number of places.
    pub size: usize,
    /// The distance of neighbouring places in the operand; 0 repeats one place.
    pub step: usize,
    /// Whether the places go down: index 0 then reads the highest place.
    pub reversed: bool,
}

/// An axis of one place.
pub(crate) const ALONE: Axis = Axis {
    size: 1,
    step: 0,
    reversed: false,
};

impl Axis {
    /// Returns this axis. The arguments give its step and direction again, so that the compiler
    /// knows them where the caller passes constants.
    #[inline(always)]
    pub fn known(self, step: usize, reversed: bool) -> Self
        requires step { self.step ≡ step }
        requires way { self.reversed ≡ reversed }
        ensures { result ≡ self }
    {
        Axis {
            size: self.size,
            step,
            reversed,
        }
    }
}

/// Returns the place of an index along an axis, if the row starts at `row`.
#[inline(always)]
pub(crate) fn along_axis(row: usize, axis: Axis, index: usize) -> usize
    requires index { index < axis.size }
    requires fits { row + steps_to axis index * axis.step < 2 ^ 32 }
    ensures { result ≡ row + steps_to axis index * axis.step }
{
    row + steps_to(axis, index) * axis.step
}

/// Returns how many steps an index lies from the lowest place of the axis.
#[inline(always)]
pub fn steps_to(axis: Axis, index: usize) -> usize
    requires { index < axis.size }
    ensures { result ≡ steps_to axis index }
{
    if axis.reversed {
        axis.size - 1 - index
    } else {
        index
    }
}
