//! How a test that goes over a table reports which row is wrong. The tests with tables use it.

use std::process::Abort;

/// Fails the test if a row was not answered as it says, and names the row and the step in it.
pub(crate) fn expect<R: Abort>(rt: &R, is_right: bool, row: &str, step: u64) {
    assert!(rt; is_right, "{row}, step {step}");
}
