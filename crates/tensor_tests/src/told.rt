//! The comparison that all tests of the crate use, and its message.

use std::fmt::Debug;
use std::process::Abort;

/// Stops the test if `found` is not `known`, with a message that has `of`, the name of the case. A
/// comparison takes the prover many steps, so there is only this one.
pub(crate) fn expect<W: Debug + Drop, T: PartialEq + Debug>(
    rt: &impl Abort,
    of: W,
    found: &T,
    known: &T,
) {
    assert_eq!(rt; *found, *known, "{of:?}");
}
