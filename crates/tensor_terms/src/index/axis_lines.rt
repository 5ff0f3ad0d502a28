//! Where the lines along an axis of dims lie. tensor_ops evaluates operations along an axis by
//! them; a change touches `specs/AxisLines`.

ghost use Rattle.std.specs.Prelude.{◌≡◌, ◌<◌, ◌≤◌, length};
ghost use Rattle.tensor_scans.specs.Places.{line_values};
ghost use Rattle.tensor_shape.specs.Legal.{most_elements};
ghost use Rattle.tensor_terms.specs.AxisLines.{AreLinesAlong};

use crate::index::merged::span;
use tensor_scans::Lines;
use tensor_shape::Dims;

/// Returns the lines along an axis of dims.
pub fn lines_along(axis: u64, dims: &Dims) -> Lines
    requires { axis < length dims.now }
    ensures along { AreLinesAlong axis dims.now result }
    ensures short { result.length ≤ most_elements }
    ensures few { line_values result result.length ≤ most_elements }
    ensures few_lines { line_values result 1 ≤ most_elements }
{
    let sizes = dims.as_slice();
    let axis = axis as usize;
    Lines {
        stride: span(sizes, 0, axis),
        length: sizes[axis] as usize,
        blocks: span(sizes, axis + 1, sizes.len()),
    }
}
