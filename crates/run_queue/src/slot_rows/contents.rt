//! `Contents`: what is known about the jobs in rows of slots. waking_rows implements it for jobs
//! with tickets.
ghost use Rattle.std.specs.Prelude.{◌≡◌, ℕ, Bool};

use std::marker::Brand;

/// What is known about each job in rows of slots, by the row in which it lies; and whether the rows
/// have length words.
pub trait Contents<J> {
    /// The key with which the rows are opened: a value that `fits` may name. Only contracts see it.
    type Key: Drop;

    // What is known about a job in a row, given the rows' key and the row's number.
    ghost fits: { Self.Key → ℕ → J → Type 0 };

    // Whether the rows have length words.
    ghost counted: { Bool };

    /// Returns whether the rows have length words.
    fn have_lengths() -> bool
        ensures { result ≡ counted };
}

/// Contents about which nothing is known, in rows with length words.
pub struct AnyJob;

impl<J> Contents<J> for AnyJob {
    ghost use Rattle.std.specs.Prelude.{true};

    type Key = ();

    ghost fits = { λ _ _ _. Unit {0} };

    ghost counted = { true };

    #[inline(always)]
    fn have_lengths() -> bool {
        true
    }
}

/// What is known about the jobs in the rows, as the play of one claim names it.
pub trait Known<J> {
    ghost known: { ℕ → J → Type 0 };
}

impl<J> Known<J> for Brand {
    ghost known = { λ _ _. Unit {0} };
}
