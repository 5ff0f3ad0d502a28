//! Views of whole dims, and the views of movements over them. A new movement needs its cases in
//! `specs/Axes` and `specs/private/MovedAxes`, and lemmas in `proofs/Moves`. What it reads is defined
//! in tensor_terms.

ghost use Rattle.std.specs.Prelude.{◌≡◌, ◌<◌, ◌≤◌, ◌+◌, ◌^◌, ℕ, List, length, slice_index, vec_len};
ghost use Rattle.std.specs.Prelude.{true, Ok, IfOk, OnOk};
ghost use Rattle.tensor_shape.specs.Index.{size_of};
ghost use Rattle.tensor_shape.specs.Legal.{most_elements, widest};
ghost use Rattle.tensor_terms.specs.Movement.{moved_dims};
ghost use Rattle.tensor_terms.specs.Tree.{movement_at};
ghost use Rattle.tensor_views.specs.Forward.{forward};
ghost use Rattle.tensor_views.specs.Axes.{axes_from, are_along, by_steps};
ghost use Rattle.tensor_views.specs.Axes.{HasRank, AreShort, moved_start};
ghost use Rattle.tensor_views.specs.Moved.{IsMovedView};
ghost use Rattle.tensor_views.specs.private.MovedAxes.{moved_axes, repeated_axes, cut_axes};
ghost use Rattle.tensor_views.specs.private.MovedAxes.{shuffled_axes, reversed_axes, strided_axes};

use crate::axis::Axis;
use crate::view::{View, ViewRef};
use std::alloc::{AllocError, Global};
use tensor_shape::Dims;
use tensor_terms::Movement;

impl View {
    /// Returns the view of all places of dims, in their order.
    pub fn of(alloc: Global, dims: &Dims) -> Result<View, AllocError>
        ensures start { IfOk result (λ v. v.start ≡ 0) }
        ensures axes { IfOk result (λ v. v.axes.items ≡ axes_from 1 dims.now) }
        ensures few { OnOk result (size_of dims.now ≤ most_elements) }
        ensures short { IfOk result (λ v. AreShort v.axes.items (2 ^ 32)) }
    {
        Ok(View {
            start: 0,
            axes: whole_axes(alloc, dims)?,
        })
    }

    /// Returns the view of a movement over this view. All axes of this view must go up, as in
    /// [`View::of`]. Otherwise the result isn't a view of the movement.
    pub fn moved(self, alloc: Global, movement: Movement<'_>) -> Result<View, AllocError>
        requires rank { HasRank (movement_at movement) (vec_len self.axes) }
        requires fits { moved_start (movement_at movement) self.start self.axes.items < 2 ^ 32 }
        requires short { AreShort self.axes.items (2 ^ 32) }
        ensures { IfOk result (λ v. (ds rs : List ℕ) → are_along self.axes.items ds ≡ true
            → moved_dims widest (movement_at movement.entry) ds ≡ Ok rs
            → IsMovedView (movement_at movement.entry) ds rs self.start self.axes.items
            v.start v.axes.items) }
    {
        Ok(View {
            start: moved_start(movement, self.as_ref()),
            axes: moved_axes(alloc, movement, self.axes)?,
        })
    }
}

/// Returns the axes of all places of dims, in their order.
fn whole_axes(alloc: Global, dims: &Dims) -> Result<Vec<Axis>, AllocError>
    ensures axes { IfOk result (λ v. v.items ≡ axes_from 1 dims.now) }
    ensures few { OnOk result (size_of dims.now ≤ most_elements) }
    ensures short { IfOk result (λ v. AreShort v.items (2 ^ 32)) }
{
    let sizes = dims.as_slice();
    let mut axes = Vec::new(alloc);
    let mut step = 1;
    for size in sizes {
        let size = *size as usize;
        axes.push(forward(size, step))?;
        step *= size;
    }
    Ok(axes)
}

/// Returns the start of the view of a movement.
fn moved_start(movement: Movement<'_>, view: ViewRef<'_>) -> usize
    requires rank { HasRank (movement_at movement) (length view.axes.now) }
    requires fits { moved_start (movement_at movement) view.start view.axes.now < 2 ^ 32 }
    ensures { result ≡ moved_start (movement_at movement.entry) view.entry.start view.entry.axes.now }
{
    match movement {
        Movement::Slice(offsets, _) => start_at(view, offsets),
        Movement::Chip(offset, axis) => {
            view.start + offset as usize * view.axes[axis as usize].step
        }
        Movement::Broadcast(_) => view.start,
        Movement::Shuffle(_) => view.start,
        Movement::Reshape(_) => view.start,
        Movement::Reverse(_) => view.start,
        Movement::Stride(_) => view.start,
    }
}

/// Returns the axes of the view of a movement.
fn moved_axes(
    alloc: Global,
    movement: Movement<'_>,
    axes: Vec<Axis>,
) -> Result<Vec<Axis>, AllocError>
    requires rank { HasRank (movement_at movement) (vec_len axes) }
    requires short { AreShort axes.items (2 ^ 32) }
    ensures { IfOk result (λ v. v.items ≡ moved_axes (movement_at movement.entry) axes.items) }
{
    match movement {
        Movement::Broadcast(counts) => repeated_axes(alloc, &axes, counts),
        Movement::Slice(_, extents) => cut_axes(alloc, &axes, extents),
        Movement::Shuffle(order) => shuffled_axes(alloc, &axes, order),
        Movement::Reshape(_) => Ok(axes),
        Movement::Chip(_, axis) => {
            let mut axes = axes;
            axes.remove(axis as usize);
            Ok(axes)
        }
        Movement::Reverse(flags) => reversed_axes(alloc, &axes, flags),
        Movement::Stride(steps) => strided_axes(alloc, &axes, steps),
    }
}

/// Returns an axis along which the places go up.
fn forward(size: usize, step: usize) -> Axis
    ensures { result ≡ forward size step }
{
    Axis {
        size,
        step,
        reversed: false,
    }
}

/// Returns the start of a view plus the steps of an index list.
fn start_at(view: ViewRef<'_>, index: &[u64]) -> usize
    requires rank { length index.now ≡ length view.axes.now }
    requires fits { view.start + by_steps view.axes.now index.now < 2 ^ 32 }
    ensures { result ≡ view.entry.start + by_steps view.entry.axes.now index.now }
{
    let mut place = view.start;
    for k in 0..index.len() {
        place += index[k] as usize * view.axes[k].step;
    }
    place
}

/// Returns the axes of a broadcast: each axis, followed by an axis of step 0 that repeats it.
fn repeated_axes(alloc: Global, axes: &[Axis], counts: &[u64]) -> Result<Vec<Axis>, AllocError>
    requires { length counts.now ≡ length axes.now }
    ensures { IfOk result (λ v. v.items ≡ repeated_axes axes.now counts.now) }
{
    let mut repeated = Vec::new(alloc);
    for k in 0..counts.len() {
        repeated.push(axes[k])?;
        repeated.push(forward(counts[k] as usize, 0))?;
    }
    Ok(repeated)
}

/// Returns the axes with other sizes.
fn cut_axes(alloc: Global, axes: &[Axis], sizes: &[u64]) -> Result<Vec<Axis>, AllocError>
    requires { length sizes.now ≡ length axes.now }
    ensures { IfOk result (λ v. v.items ≡ cut_axes axes.now sizes.now) }
{
    let mut cut = Vec::new(alloc);
    for k in 0..sizes.len() {
        cut.push(forward(sizes[k] as usize, axes[k].step))?;
    }
    Ok(cut)
}

/// Returns the axes in the given order.
fn shuffled_axes(alloc: Global, axes: &[Axis], order: &[u64]) -> Result<Vec<Axis>, AllocError>
    requires { (k : ℕ) → k < length order.now → slice_index order.now k < length axes.now }
    ensures { IfOk result (λ v. v.items ≡ shuffled_axes axes.now order.now) }
{
    let mut shuffled = Vec::new(alloc);
    for axis in order {
        shuffled.push(axes[*axis as usize])?;
    }
    Ok(shuffled)
}

/// Returns the axes with the direction down where the flag is set.
fn reversed_axes(alloc: Global, axes: &[Axis], flags: &[bool]) -> Result<Vec<Axis>, AllocError>
    requires { length flags.now ≡ length axes.now }
    ensures { IfOk result (λ v. v.items ≡ reversed_axes axes.now flags.now) }
{
    let mut swapped = Vec::new(alloc);
    for k in 0..flags.len() {
        let axis = axes[k];
        swapped.push(Axis {
            size: axis.size,
            step: axis.step,
            reversed: flags[k],
        })?;
    }
    Ok(swapped)
}

/// Returns the axes that read every step-th place. A step above the size of an axis counts as the
/// size, which reads only the first place and can't overflow.
fn strided_axes(alloc: Global, axes: &[Axis], steps: &[u64]) -> Result<Vec<Axis>, AllocError>
    requires rank { length steps.now ≡ length axes.now }
    requires some { (k : ℕ) → k < length steps.now → 0 < slice_index steps.now k }
    requires short { AreShort axes.now (2 ^ 32) }
    ensures { IfOk result (λ v. v.items ≡ strided_axes axes.now steps.now) }
{
    let mut strided = Vec::new(alloc);
    for k in 0..steps.len() {
        let axis = axes[k];
        let step = steps[k] as usize;
        strided.push(forward(axis.size.div_ceil(step), axis.step * step.min(axis.size)))?;
    }
    Ok(strided)
}
