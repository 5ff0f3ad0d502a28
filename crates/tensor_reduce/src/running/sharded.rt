//! Steps that are evaluated in shards. `laws` says why this gives their tensors.

ghost use Rattle.std.specs.Prelude.{◌≡◌, ◌<◌, ◌≤◌, ◌++◌, length, map, IfOk, IfErr, IsTrue, Ok};
ghost use Rattle.std.specs.List.{range_with_len};
ghost use Rattle.tensor_ops.specs.Legal.{widest};
ghost use Rattle.tensor_ops.specs.Parts.{has_parts};
ghost use Rattle.tensor_ops.specs.Result.{dims_of};
ghost use Rattle.tensor_ops.specs.Term.{has_inputs};
ghost use Rattle.tensor_ops.specs.Tree.{term_of};
ghost use Rattle.tensor_ops.specs.Value.{tensor_of};
ghost use Rattle.tensor_reduce.specs.private.Combined.{shard_places, shard_at_place};

use crate::running::combined::{combined_values, reducer_of};
use crate::running::shard_kernel::ShardKernel;
use crate::running::workers::Workers;
use crate::schedule::sharding::Sharding;
use crate::shards::Shards;
use parallel_for::ForFault;
use std::sync::Wait;
use std::thread::Threads;
use tensor_ops::{Dims, Expr, Inputs, MAX_ELEMENTS, PartEvaluator, Tensor};

/// Returns the tensor of a reduction or a contraction with the given dims. Its values are evaluated
/// in shards and combined.
pub(crate) fn of_shards<RT: Threads + Wait + Sync>(
    workers: &Workers<'_, RT>,
    sharding: Sharding,
    expr: &Expr,
    dims: &Dims,
    inputs: &Inputs,
    earlier: &[Tensor],
) -> Result<Tensor<'static>, ForFault>
    requires inputs { IsTrue (has_inputs (term_of expr.now)
        (length (inputs.now.tensors ++ earlier.now))) }
    requires dims { dims_of widest (term_of expr.now) (inputs.now.tensors ++ earlier.now)
        ≡ Ok dims.now }
    requires parts { IsTrue (has_parts (term_of expr.now)) }
    ensures tensor { IfOk result (λ t.
        t ≡ tensor_of (term_of expr.now) (inputs.now.tensors ++ earlier.now)) }
    ensures faults { IfErr result (λ fault. fault ≡ ForFault.NoMemory) }
{
    let parts = PartEvaluator::over(workers.alloc, expr, inputs, earlier)?;
    let (inner, values) = (parts.inner(), dims.size());
    let shards = Shards::of(inner, sharding.width);
    let count = shards.count();
    let is_short = inner.saturating_mul(values) <= sharding.few;
    let leaf = if is_short {
        MAX_ELEMENTS
    } else {
        sharding.leaf
    };
    let found = found_of(workers, ShardKernel { parts, shards }, values * count, leaf)?;
    let combined = combined_values(
        workers.alloc,
        reducer_of(expr),
        &found,
        values as usize,
        count as usize,
    )?;
    Ok(Tensor::new(dims.copied(), combined))
}

/// Returns what each shard of each value contributes.
fn found_of<RT: Threads + Wait + Sync>(
    workers: &Workers<'_, RT>,
    kernel: ShardKernel<'_>,
    places: u64,
    leaf: u64,
) -> Result<Vec<i64>, ForFault>
    requires inside { places ≤ shard_places kernel }
    requires some { 0 < leaf }
    ensures items { IfOk result (λ found.
        found.items ≡ map (shard_at_place kernel.entry) (range_with_len 0 places)) }
    ensures faults { IfErr result (λ fault. fault ≡ ForFault.NoMemory) }
{
    workers.items(&kernel, places, leaf)
}
