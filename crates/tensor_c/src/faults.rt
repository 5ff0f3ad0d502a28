//! The numbers that calls return for faults and refusals. Callers in other languages know them: a
//! change also changes `include/tensor.h`.

ghost use Rattle.std.specs.Prelude.{◌≡◌, ◌≢◌, IfSome, IfNone};
ghost use Rattle.expr_reader.specs.Faults.{fault_number};
ghost use Rattle.expr_reader.specs.declared.fault.Fault.{Fault};
ghost use Rattle.tensor_c.specs.Call.{fault_result};
ghost use Rattle.tensor_c.specs.Plan.{refusal_result};

use expr_reader::Fault;
use prepared_expressions::Refusal;

/// The result for numbers that are not a plan.
const NO_PLAN: i64 = -101;

/// Returns the result for a fault: its number, negated.
pub(crate) fn result_of(fault: Fault) -> i64
    ensures { result ≡ fault_result fault }
{
    -i64::from(fault.number())
}

/// Returns the result for a refusal: a fault's number, negated, or [`NO_PLAN`].
pub(crate) fn result_of_refusal(refusal: Refusal) -> i64
    ensures { result ≡ refusal_result refusal }
{
    match refusal {
        Refusal::NoMemory => result_of(Fault::NoMemory),
        Refusal::OtherArrays => result_of(Fault::BadTensor),
        Refusal::NoRecord | Refusal::TooLarge | Refusal::NoDims => NO_PLAN,
    }
}

/// Returns the fault with this number.
pub(crate) fn fault_of(number: u32) -> Option<Fault>
    ensures known { IfSome result (λ fault. fault_number fault ≡ number) }
    ensures unknown { IfNone result ((fault : Fault) → fault_number fault ≢ number) }
{
    match number {
        1 => Some(Fault::TooLong),
        2 => Some(Fault::NotJson),
        3 => Some(Fault::BadField),
        4 => Some(Fault::BadVersion),
        5 => Some(Fault::BadWorkers),
        6 => Some(Fault::BadBlock),
        7 => Some(Fault::BadTensor),
        8 => Some(Fault::UnknownInput),
        9 => Some(Fault::UnknownOp),
        10 => Some(Fault::BadArity),
        11 => Some(Fault::BadArgument),
        12 => Some(Fault::ShapeMismatch),
        13 => Some(Fault::OutOfRange),
        14 => Some(Fault::TooLarge),
        15 => Some(Fault::NoMemory),
        _ => None,
    }
}
