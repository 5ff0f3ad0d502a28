//! The place of a fault in the JSON value of a request. `fault_reasons` prints it as a JSON
//! pointer; `specs/Located` says which steps it stands for.

use crate::fault::Fault;
use arrayvec::ArrayVec;

/// The capacity of [`Indices`]. An expression has at most this number of nodes, so no place in it
/// is deeper.
pub const MAX_DEPTH: usize = 10_000;

/// The index of an element in each array on the way down to it, the innermost array first.
pub type Indices = ArrayVec<u8, MAX_DEPTH>;

/// A place in the JSON value of a request.
#[derive(Drop)]
pub enum Place<'v> {
    /// The whole value.
    Whole,
    /// The field of the request with this name.
    Field(&'v str),
    /// The input with this name.
    Input(&'v str),
    /// The expression, or a node or an element of a node in it, by the indices on the way down.
    Node(Indices),
}

/// A fault and its place.
#[derive(Drop)]
pub struct Located<'v> {
    /// The fault that was found.
    pub fault: Fault,
    /// The place of the fault. It has no meaning if the fault is [`Fault::NoMemory`].
    pub place: Place<'v>,
}
