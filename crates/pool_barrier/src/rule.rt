//! The rule of a barrier's table, and how its views are split. `specs/BarrierWord.antt` has the
//! rule. The calls and laws of the crate rest on it.
ghost use Rattle.std.specs.Prelude.{ℕ};

use crate::view::View;
use atomic_table::{Split, TableRule};
use std::marker::{Brand, PhantomData};

/// The most notices of one barrier. The word of a barrier with this many notices and the flag fills
/// 32 bits, which is what a sleep compares.
pub const MOST_NOTICES: u64 = 2_147_483_647;

/// How many words the table has: two cache lines.
pub const WORDS: usize = 16;

/// The place of the only word that is used. Its cache line has no other memory, wherever the block
/// begins.
pub const STATE: usize = 8;

/// The rule of a barrier's table: in every state the word is the barrier word.
pub struct Law;

impl TableRule<(), View, u64> for Law {
    ghost use Rattle.pool_barrier.specs.BarrierWord.{IsCounted};
    ghost use Rattle.pool_barrier.specs.declared.view.View.TheVariants.{Whole};

    ghost holds = { IsCounted };

    ghost first = { λ count. Whole count };
}

/// Splits the first seat: it becomes the waiter, and the new seat has all notices.
pub struct CutsShare;

impl Split<View> for CutsShare {
    ghost use Rattle.pool_barrier.specs.Views.{waiter_of_whole, share_of_whole};

    ghost left = { waiter_of_whole };

    ghost right = { share_of_whole };
}

/// How many notices a split moves.
pub trait Amount {
    ghost amount: { ℕ };
}

impl Amount for Brand {
    ghost amount = { 0 };
}

/// Moves notices from one share to a new one.
pub struct Moves<K> {
    of: PhantomData<K>,
}

impl<K: Amount> Split<View> for Moves<K> {
    ghost use Rattle.pool_barrier.specs.Views.{after_split, split_off};

    ghost left = { after_split K.amount };

    ghost right = { split_off K.amount };
}
