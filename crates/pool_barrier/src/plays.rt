//! The plays of a barrier: what each step on its word tells the seat that makes it.
//! `specs/Views.antt` defines them.
use crate::view::View;
use atomic_table::Play;

/// The play of a notice.
pub struct GivesOne;

impl Play<(), View> for GivesOne {
    ghost use Rattle.pool_barrier.specs.Views.{gives_one};

    ghost then = { gives_one };
}

/// The play of setting the waiter's flag, which also reads the word.
pub struct SetsFlag;

impl Play<(), View> for SetsFlag {
    ghost use Rattle.pool_barrier.specs.Views.{sets_flag};

    ghost then = { sets_flag };
}
