//! A fact about the definitions alone. The function does nothing, and its contract is the fact.

ghost use Rattle.tensor_runner.specs.Limited.{PlainWithoutLimits};

/// Without limits, the line that answers a text is the one that [`run`](crate::run) writes for it.
pub fn no_limits_change_no_line()
    ensures { PlainWithoutLimits }
{}
