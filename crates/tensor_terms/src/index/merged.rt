//! Which axes are in a list and which are not, in ascending order, and products of sizes.
//! tensor_ops lays out its loops by these calls; a change touches `specs/Merged`.

ghost use Rattle.std.specs.Prelude.{◌≡◌, ◌≤◌, ◌<◌, ◌-◌, ℕ, length, not, true, false};
ghost use Rattle.std.specs.List.{filter, range_with_len};
ghost use Rattle.tensor_shape.specs.Index.{size_of};
ghost use Rattle.tensor_shape.specs.Legal.{highest_rank, most_elements, IsLegal};
ghost use Rattle.tensor_terms.specs.Movement.{is_among};
ghost use Rattle.tensor_terms.specs.Merged.{dims_at};

use crate::dims::movement_dims::is_among;
use tensor_shape::PerAxis;

/// Returns the axes in `[from, to)` that are in `axes`, in ascending order.
pub fn among(axes: &[u64], from: u64, to: u64) -> PerAxis
    requires order { from ≤ to }
    requires few { to ≤ highest_rank }
    ensures { result.items ≡ filter (λ k. is_among k axes.now) (range_with_len from (to - from)) }
{
    let mut found = PerAxis::new();
    for axis in from..to {
        if is_among(axis, axes) {
            found.push(axis);
        }
    }
    found
}

/// Returns the axes in `[from, to)` that are not in `axes`, in ascending order.
pub fn others(axes: &[u64], from: u64, to: u64) -> PerAxis
    requires order { from ≤ to }
    requires few { to ≤ highest_rank }
    ensures { result.items
        ≡ filter (λ k. not (is_among k axes.now)) (range_with_len from (to - from)) }
{
    let mut found = PerAxis::new();
    for axis in from..to {
        if !is_among(axis, axes) {
            found.push(axis);
        }
    }
    found
}

/// Returns the first axis in `[from, to)` that is in `axes`; `to` if there is none.
pub fn next_among(axes: &[u64], from: u64, to: u64) -> u64
    requires { from ≤ to }
    ensures order { from ≤ result }
    ensures within { result ≤ to }
    ensures before { (k : ℕ) → from ≤ k → k < result → is_among k axes.now ≡ false }
    ensures here { result < to → is_among result axes.now ≡ true }
{
    for axis in from..to {
        if is_among(axis, axes) {
            return axis;
        }
    }
    to
}

/// Returns the first axis in `[from, to)` that is not in `axes`; `to` if there is none.
pub fn next_other(axes: &[u64], from: u64, to: u64) -> u64
    requires { from ≤ to }
    ensures order { from ≤ result }
    ensures within { result ≤ to }
    ensures before { (k : ℕ) → from ≤ k → k < result → is_among k axes.now ≡ true }
    ensures here { result < to → is_among result axes.now ≡ false }
{
    for axis in from..to {
        if !is_among(axis, axes) {
            return axis;
        }
    }
    to
}

/// Returns the product of the sizes of the axes in `[from, to)`.
pub fn span(sizes: &[u64], from: usize, to: usize) -> usize
    requires legal { IsLegal sizes.now }
    requires order { from ≤ to }
    requires within { to ≤ length sizes.now }
    ensures value { result ≡ size_of (dims_at (range_with_len from (to - from)) sizes.now) }
    ensures small { result ≤ most_elements }
{
    let mut span = 1;
    for axis in from..to {
        span *= sizes[axis] as usize;
    }
    span
}
