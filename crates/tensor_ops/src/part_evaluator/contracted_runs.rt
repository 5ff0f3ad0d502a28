//! Values of a contraction in runs: the values that are combined into one value of a reduction lie
//! side by side. A call computes all that it needs at once, since each range of a contraction takes
//! time to begin. specs/private/ContractedRuns defines the values.

ghost use Rattle.std.specs.Prelude.{◌≡◌, ◌<◌, ◌≤◌, ◌+◌, ◌-◌, ◌*◌, ◌++◌, length, map};
ghost use Rattle.std.specs.Prelude.{true, IfOk};
ghost use Rattle.std.specs.List.{range_with_len};
ghost use Rattle.tensor_shape.specs.Index.{size_of};
ghost use Rattle.tensor_shape.specs.Legal.{most_elements};
ghost use Rattle.tensor_kernels.specs.Contracting.{contraction_count, contraction_value};
ghost use Rattle.tensor_loops.specs.Folds.{folded};
ghost use Rattle.tensor_ops.specs.private.Lowering.{contraction_at};
ghost use Rattle.tensor_ops.specs.private.Runs.{LieInRuns};
ghost use Rattle.tensor_terms.specs.Reduction.{are_axes};
ghost use Rattle.tensor_terms.specs.Merged.{others};
ghost use Rattle.tensor_values.specs.Combining.{unit};

use std::alloc::{AllocError, Allocator, Global};
use tensor_kernels::Contraction;
use tensor_loops::{add_combined, combined_with};
use tensor_shape::Dims;
use tensor_terms::{dims_at, other_dims};
use tensor_values::Reducer;

/// A contraction whose values lie in runs, one after the other. None of the values is stored.
#[derive(Drop)]
pub(crate) struct ContractedRuns<'a> {
    contraction: Contraction<'a>,
    /// The number of values of a run.
    pub(crate) length: usize,
    /// The number of runs.
    pub(crate) count: usize,
    ghost whole: { contraction_count contraction ≡ length * count },
    ghost few: { length * count ≤ most_elements },
}

impl<'a> ContractedRuns<'a> {
    ghost use Rattle.tensor_ops.specs.private.ContractedRuns.{contracted_value, contracted_combined};

    /// Returns the values of a contraction along its first axes: a run for each index list of the
    /// other axes.
    pub(crate) fn along(
        axes: &[u64],
        contraction: Contraction<'a>,
        dims: &Dims,
    ) -> ContractedRuns<'a>
        requires count { contraction_count contraction ≡ size_of dims.now }
        requires axes { are_axes (length dims.now) axes.now ≡ true }
        requires first { axes.now ++ others axes.now (length dims.now)
            ≡ range_with_len 0 (length dims.now) }
        ensures { LieInRuns (contraction_value result.contraction) result.length result.count
            dims.now axes.now (contraction_at contraction.entry dims.now) }
    {
        let length = dims_at(axes, dims).size() as usize;
        let count = other_dims(axes, dims).size() as usize;
        // For the proof: there are no more values than dims can have.
        let _values = dims.size();
        ContractedRuns {
            contraction,
            length,
            count,
        }
    }

    /// Returns the values `[first, last)` of a run, combined from the unit.
    pub(crate) fn combined(
        &self,
        alloc: Global,
        reducer: Reducer,
        run: usize,
        first: usize,
        last: usize,
    ) -> Result<i64, AllocError>
        requires order { first ≤ last }
        requires within { last ≤ self.now.length }
        requires run { run < self.now.count }
        ensures { IfOk result (λ v. v ≡ folded reducer (unit reducer)
            (λ q. contracted_value self.now run (first + q)) (last - first)) }
    {
        let start = self.length * run;
        let values = self.contraction.values(alloc, start + first, start + last)?;
        Ok(combined_with(reducer, reducer.unit(), &values))
    }

    /// Returns the runs `[first, last)`, each combined from the unit, in order. `target` allocates
    /// the results.
    pub(crate) fn together<A: Allocator>(
        &self,
        alloc: Global,
        target: A,
        reducer: Reducer,
        first: usize,
        last: usize,
    ) -> Result<Vec<i64, A>, AllocError>
        requires order { first ≤ last }
        requires within { last ≤ self.now.count }
        ensures { IfOk result (λ v. v.items
            ≡ map (contracted_combined reducer self.now) (range_with_len first (last - first))) }
    {
        let mut combined = Vec::with_capacity(target, last - first)?;
        let (from, to) = (self.length * first, self.length * last);
        let values = self.contraction.values(alloc, from, to)?;
        add_combined(reducer, &values, self.length, last - first, &mut combined);
        Ok(combined)
    }
}
