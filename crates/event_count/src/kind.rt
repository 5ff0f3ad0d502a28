//! `Kind`: the type that tells a count with rows from a count alone. Clauses and plays depend on it
//! (`specs/Kinds.antt`).
ghost use Rattle.std.specs.Prelude.{Bool};

/// A kind of count.
pub trait Kind {
    // Whether the count has rows, and may be stopped.
    ghost rowed: { Bool };
}

/// The kind of counts without rows.
pub struct Alone;

impl Kind for Alone {
    ghost use Rattle.std.specs.Prelude.{false};

    ghost rowed = { false };
}

/// The kind of counts with rows.
pub struct Rowed;

impl Kind for Rowed {
    ghost use Rattle.std.specs.Prelude.{true};

    ghost rowed = { true };
}
