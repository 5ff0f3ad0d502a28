//! Makes the plan of a header, and writes it. A plan is the record of a prepared expression, so its
//! format belongs to `prepared_expressions`.

ghost use Rattle.std.specs.Prelude.{◌≡◌, ◌⊎◌, Ok, Err, IfOk, IsErrOf, MatchResult};
ghost use Rattle.expr_reader.specs.Request.{Asked};
ghost use Rattle.prepared_expressions.specs.Prepared.{prepared_of};
ghost use Rattle.tensor_c.specs.Answer.{or_fault};
ghost use Rattle.tensor_c.specs.Call.{IsTooLong};
ghost use Rattle.tensor_c.specs.Plan.{asked_over, plan_over, called_for_plan, IsPlan};

use crate::faults::result_of;
use crate::room::{NO_ROOM, put_first};
use expr_reader::{Fault, read_outline};
use prepared_expressions::prepare;
use std::alloc::Global;

/// Returns the plan of a header with `count` values. The values are not part of a plan, so none is
/// read.
pub(crate) fn plan_of(alloc: Global, header: &[u8], count: u64) -> Result<Vec<u64>, Fault>
    ensures numbers { MatchResult result
        (λ numbers. plan_over header.now count ≡ Ok numbers.items)
        (λ fault. (fault ≡ Fault.NoMemory) ⊎ (plan_over header.now count ≡ Err fault)) }
    ensures ready { IfOk result (λ numbers. (a : Asked) → asked_over header.now count ≡ Ok a
        → IsPlan (prepared_of a)) }
    ensures too_long { IsTooLong header.now count → IsErrOf result Fault.TooLong }
{
    let outline = read_outline(alloc, header, count)?;
    match prepare(alloc, &outline) {
        Ok(numbers) => Ok(numbers),
        Err(_) => Err(Fault::NoMemory),
    }
}

/// Writes the plan that was found, as [`put_numbers`] does, or returns the result for a fault. So too
/// little room is never reported as an allocation failure.
pub(crate) fn put_found_plan(found: Result<Vec<u64>, Fault>, plan: &mut [u64]) -> i64
    ensures { record { result = result; plan = plan.new }
        ≡ called_for_plan (or_fault (λ numbers. numbers.items) found) plan.old }
{
    match found {
        Ok(numbers) => put_numbers(numbers.as_slice(), plan),
        Err(fault) => result_of(fault),
    }
}

/// Writes a plan if it fits, and returns how many numbers it has. Otherwise returns [`NO_ROOM`].
fn put_numbers(numbers: &[u64], plan: &mut [u64]) -> i64
    ensures { record { result = result; plan = plan.new }
        ≡ called_for_plan (Ok numbers.now) plan.old }
{
    if plan.len() < numbers.len() {
        return NO_ROOM;
    }
    put_first(plan, numbers);
    numbers.len() as i64
}
