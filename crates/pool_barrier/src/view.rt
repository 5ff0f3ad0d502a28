//! The views of the seats at a barrier's table. No value of these types is ever made: contracts
//! alone name them, by `specs/Views.antt`.

/// How far a waiter has come.
pub enum Phase {
    /// The waiter has not set its flag.
    Fresh,
    /// The waiter has set its flag, and found notices left.
    Flagged,
    /// The waiter has set its flag, and found no notice left.
    Done,
}

/// What a proof knows of a seat.
pub enum View {
    /// The first seat: all notices and the right to wait, before either is handed out.
    Whole(u64),
    /// A share: how many notices it has left to give, how many it has given, and the word that its
    /// last notice found, or 0.
    Gives {
        notices: u64,
        given: u64,
        found: u64,
    },
    /// The waiter, and how far it has come.
    Waits(Phase),
}
