//! The views of the seats at a table of rows. No value of these types is ever made: contracts alone
//! name them, by `specs/Views.antt`.

use std::collections::LinkedList;

/// A try to claim an element.
pub struct Claim {
    /// The element that it tried to claim.
    pub element: usize,
    /// The word that the element had to have.
    pub wanted: u64,
    /// The word that the element had.
    pub found: u64,
}

/// A load of a row's length.
pub struct Look {
    /// The row.
    pub row: usize,
    /// The length that the load found.
    pub found: u64,
}

/// What a seat tried, and where its row's front is. The table's rule requires nothing of it.
pub struct Notes {
    /// How many claims the seat made.
    pub claims: u64,
    /// The seat's last claim.
    pub claim: Claim,
    /// How many lengths the seat looked at.
    pub looks: u64,
    /// The seat's last look.
    pub look: Look,
    /// The position of the next push at the front.
    pub front: u64,
}

/// What a proof knows of a seat's steps.
pub struct View<J> {
    /// How many seats' accounts the view has.
    pub parts: u64,
    /// The jobs that the seat made ready.
    pub puts: LinkedList<J>,
    /// The jobs that the seat claimed out.
    pub takes: LinkedList<J>,
    /// The element on which the seat works.
    pub busy: Option<usize>,
    /// The element for which the length of its row is one more than the number of the row's ready
    /// elements.
    pub owes: Option<usize>,
    /// What the seat tried, and where its row's front is.
    pub notes: Notes,
}
