//! Composition of two views into one. Each axis of the first view is traced along the axes of the
//! second. Not all pairs can be one view (README.md, "Limits"); a change of which pairs can touches
//! `specs/Composing` and what tensor_ops stores instead.

ghost use Rattle.std.specs.Prelude.{◌≡◌, ◌<◌, ◌+◌, ◌-◌, ◌*◌, ◌^◌, [], ◌∷◌, map};
ghost use Rattle.std.specs.Prelude.{IfOk, IfSome, if◌then◌else◌};
ghost use Rattle.tensor_views.specs.Composing.{span, IsComposition};
ghost use Rattle.tensor_views.specs.private.Tracing.{is_split, split_axes, IsSameView};
ghost use Rattle.tensor_views.specs.private.Tracing.{goes_along, traced_by, beyond, passed, extent_along};
ghost use Rattle.tensor_views.specs.private.Tracing.{opened, traced_axis};
ghost use Rattle.tensor_views.specs.View.{view_size};

use crate::axis::Axis;
use crate::view::{View, ViewRef};
use std::alloc::{AllocError, Global};

/// An axis of the first view while it is traced along the axes of the second view.
#[derive(Clone, Copy, Drop)]
pub(crate) enum Trace {
    /// The axis isn't traced yet: its step counts places of the second view's remaining axes.
    Open(Axis),
    /// The axis is traced: its step counts places of the operand.
    Traced(Axis),
}

impl ViewRef<'_> {
    /// Returns the view that reads `second` at the places of this view; `None` if that isn't found
    /// to be one view. Each axis of this view must lie along one axis of the second, or go along
    /// several in whole turns.
    pub fn then(self, alloc: Global, second: ViewRef<'_>) -> Result<Option<View>, AllocError>
        requires some { 0 < view_size second.axes.now }
        requires few { view_size second.axes.now < 2 ^ 32 }
        requires first { self.start + span self.axes.now < 2 ^ 32 }
        requires second { second.start + span second.axes.now < 2 ^ 32 }
        ensures { IfOk result (λ r. IfSome r (λ view. IsComposition view.start view.axes.items
            self.entry.start self.entry.axes.now second.entry.start second.entry.axes.now)) }
    {
        let axes = refined(alloc, self.axes, second.axes)?;
        let mut traces = open(alloc, &axes)?;
        let mut left = self.start;
        let mut place = second.start;
        for axis in second.axes {
            let low = left % axis.size;
            let extent = extent_along(*axis, &traces);
            if axis.size <= low + extent {
                return Ok(None);
            }
            place += first_step(*axis, low, low + extent) * axis.step;
            traces = all_passed(alloc, *axis, &traces)?;
            left /= axis.size;
        }
        Ok(Some(View {
            start: place,
            axes: traced_axes(alloc, &traces)?,
        }))
    }
}

/// Returns how many steps the places from index `low` to index `high` lie from the lowest place of
/// an axis, at least.
fn first_step(axis: Axis, low: usize, high: usize) -> usize
    requires { high < axis.size }
    ensures { result ≡ (if axis.reversed then axis.size - 1 - high else low) }
{
    if axis.reversed {
        axis.size - 1 - high
    } else {
        low
    }
}

/// Returns axes that reach the same places. An axis that passes the end of an axis of the second
/// view is split in two where that is possible.
fn refined(alloc: Global, axes: &[Axis], second: &[Axis]) -> Result<Vec<Axis>, AllocError>
    requires some { 0 < view_size second.now }
    requires few { view_size second.now < 2 ^ 32 }
    ensures { IfOk result (λ v. IsSameView v.items axes.now) }
{
    let mut refined = Vec::with_capacity(alloc, axes.len())?;
    refined.extend_from_slice(axes)?;
    let mut stride = 1;
    for axis in second {
        stride *= axis.size;
        refined = split_axes(alloc, &refined, stride)?;
    }
    Ok(refined)
}

/// Splits each axis that passes `stride` in whole turns: one axis within the stride, and one that
/// steps by it.
fn split_axes(alloc: Global, axes: &[Axis], stride: usize) -> Result<Vec<Axis>, AllocError>
    ensures { IfOk result (λ v. v.items ≡ split_axes stride axes.now) }
{
    let mut parts = Vec::new(alloc);
    for axis in axes {
        if is_split(*axis, stride) {
            let turn = stride / axis.step;
            parts.push(Axis {
                size: turn,
                step: axis.step,
                reversed: axis.reversed,
            })?;
            parts.push(Axis {
                size: axis.size / turn,
                step: stride,
                reversed: axis.reversed,
            })?;
        } else {
            parts.push(*axis)?;
        }
    }
    Ok(parts)
}

/// Whether an axis passes a stride in whole turns: the stride is several of its steps, fewer than
/// its size, and the size is a multiple of the number of these steps.
fn is_split(axis: Axis, stride: usize) -> bool
    ensures { result ≡ is_split stride axis }
{
    0 < axis.step
        && stride % axis.step == 0
        && 1 < stride / axis.step
        && stride / axis.step < axis.size
        && axis.size % (stride / axis.step) == 0
}

/// Returns an open trace for each axis.
fn open(alloc: Global, axes: &[Axis]) -> Result<Vec<Trace>, AllocError>
    ensures { IfOk result (λ v. v.items ≡ map opened axes.now) }
{
    let mut traces = Vec::with_capacity(alloc, axes.len())?;
    for axis in axes {
        traces.push_reserved(Trace::Open(*axis));
    }
    Ok(traces)
}

/// Returns how far the open traces reach along `first`, the first remaining axis of the second
/// view.
fn extent_along(first: Axis, traces: &[Trace]) -> usize
    requires size { 0 < first.size }
    requires fits { extent_along first traces.now < 2 ^ 32 }
    ensures { result ≡ extent_along first traces.now }
{
    match traces {
        [] => 0,
        [Trace::Open(axis), rest @ ..] => {
            let extent = extent_along(first, rest);
            if goes_along(first, *axis) {
                (axis.size - 1) * axis.step + extent
            } else {
                extent
            }
        }
        [Trace::Traced(_), rest @ ..] => extent_along(first, rest),
    }
}

/// Whether an axis has its steps along `first`, the first remaining axis of the second view. If
/// not, its step is a multiple of the size of `first`, or it has at most one place.
fn goes_along(first: Axis, axis: Axis) -> bool
    requires { 0 < first.size }
    ensures { result ≡ goes_along first axis }
{
    1 < axis.size && axis.step % first.size != 0
}

/// Returns the traces after `first`, the first remaining axis of the second view.
fn all_passed(alloc: Global, first: Axis, traces: &[Trace]) -> Result<Vec<Trace>, AllocError>
    requires size { 0 < first.size }
    requires fits { extent_along first traces.now * first.step < 2 ^ 32 }
    ensures { IfOk result (λ v. v.items ≡ map (passed first) traces.now) }
{
    let mut after = Vec::with_capacity(alloc, traces.len())?;
    for trace in traces {
        after.push_reserved(passed(first, *trace));
    }
    Ok(after)
}

/// Returns a trace after `first`, the first remaining axis of the second view: traced if its steps
/// lie along `first`.
fn passed(first: Axis, trace: Trace) -> Trace
    requires size { 0 < first.size }
    requires fits { extent_along first (trace ∷ []) * first.step < 2 ^ 32 }
    ensures { result ≡ passed first trace }
{
    match trace {
        Trace::Open(axis) => {
            if goes_along(first, axis) {
                Trace::Traced(traced_by(first, axis))
            } else {
                Trace::Open(beyond(first, axis))
            }
        }
        Trace::Traced(axis) => Trace::Traced(axis),
    }
}

/// Returns the axis that lies along `first`: the steps are multiplied, and two directions down make
/// one up.
fn traced_by(first: Axis, axis: Axis) -> Axis
    requires { axis.step * first.step < 2 ^ 32 }
    ensures { result ≡ traced_by first axis }
{
    Axis {
        size: axis.size,
        step: axis.step * first.step,
        reversed: if first.reversed {
            !axis.reversed
        } else {
            axis.reversed
        },
    }
}

/// Returns an axis whose steps lie past `first`, with its step counted in places of the other axes.
fn beyond(first: Axis, axis: Axis) -> Axis
    requires { 0 < first.size }
    ensures { result ≡ beyond first axis }
{
    Axis {
        size: axis.size,
        step: axis.step / first.size,
        reversed: axis.reversed,
    }
}

/// Returns the axes of traces, with their steps in the operand.
fn traced_axes(alloc: Global, traces: &[Trace]) -> Result<Vec<Axis>, AllocError>
    ensures { IfOk result (λ v. v.items ≡ map traced_axis traces.now) }
{
    let mut axes = Vec::with_capacity(alloc, traces.len())?;
    for trace in traces {
        axes.push_reserved(traced_axis(*trace));
    }
    Ok(axes)
}

/// Returns the axis of a trace, with its step in the operand. An open trace reaches one place.
fn traced_axis(trace: Trace) -> Axis
    ensures { result ≡ traced_axis trace }
{
    match trace {
        Trace::Open(axis) => Axis {
            size: axis.size,
            step: 0,
            reversed: false,
        },
        Trace::Traced(axis) => axis,
    }
}
