//! Request texts that several tests use, and functions that make others.

use std::alloc::{AllocError, Global};

/// A text that asks for a scalar.
pub(crate) const SCALAR: &[u8] = b"{\"version\":1,\"workers\":2,\"block\":4,\
    \"inputs\":{\"a\":{\"dims\":[],\"data\":[5]}},\"expr\":\"a\"}";

/// The request of [`SCALAR`], with white space and the fields in another order.
pub(crate) const SPACED: &[u8] = b" {\r\n\t\"expr\" : \"a\", \
    \"inputs\" : {\"a\" : {\"data\" : [ 5 ], \"dims\" : [ ]}}, \
    \"block\" : 4, \"workers\" : 2, \"version\" : 1 }\n";

/// The answer of [`SCALAR`] and of [`SPACED`].
pub(crate) const SCALAR_LINE: &str = "{\"data\":[5],\"dims\":[]}\n";

/// A text of 162 bytes that asks for the product of two matrices.
pub(crate) const PRODUCT: &[u8] = b"{\"version\":1,\"workers\":2,\"block\":4,\
    \"inputs\":{\"l\":{\"dims\":[2,3],\"data\":[1,4,2,5,3,6]},\
    \"r\":{\"dims\":[3,2],\"data\":[1,3,5,2,4,6]}},\
    \"expr\":[\"contract\",\"l\",\"r\",[[1,0]]]}";

/// The answer of [`PRODUCT`].
pub(crate) const PRODUCT_LINE: &str = "{\"data\":[22,49,28,64],\"dims\":[2,2]}\n";

/// Returns a request text with these inputs and this expression, for two workers and blocks of four
/// places.
pub(crate) fn request(
    alloc: Global,
    version: u32,
    inputs: &str,
    expr: &str,
) -> Result<String, AllocError> {
    format!(in alloc;
        "{{\"version\":{version},\"workers\":2,\"block\":4,\"inputs\":{inputs},\"expr\":{expr}}}"
    )
}
