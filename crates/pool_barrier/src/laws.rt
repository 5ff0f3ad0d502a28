//! Laws of a barrier's word: what holds between any two steps, whatever threads take them. Each
//! function does nothing, and its contract is the law. `specs/Laws.antt` states them.
ghost use Rattle.pool_barrier.specs.Laws.{WordIsBarrierWord, NoNoticeIsLeft, AllNoticesAreGiven};

use crate::rule::Law;
use crate::view::View;
use atomic_table::TableRule;

/// The word is twice the number of notices left over all shares, plus 1 if the waiter has set its
/// flag.
pub fn word_is_barrier_word()
    ensures { WordIsBarrierWord ⟦<Law as TableRule<(), View, u64>>⟧.holds }
{}

/// Once a wait has returned, no share has a notice left.
pub fn no_notice_is_left()
    ensures { NoNoticeIsLeft ⟦<Law as TableRule<(), View, u64>>⟧.holds }
{}

/// Once a wait has returned, the shares have given all notices with which the barrier was made.
pub fn all_notices_are_given()
    ensures { AllNoticesAreGiven ⟦<Law as TableRule<(), View, u64>>⟧.holds }
{}
