//! What lowering returns for each part of an expression.

use crate::lowered::Lowered;
use tensor_shape::Dims;

/// A part of an expression, lowered, with its dims.
#[derive(Drop)]
pub(crate) struct Part<'a> {
    pub(crate) lowered: Lowered<'a>,
    pub(crate) dims: Dims,
    /// The most pieces that are held at once while the values are computed.
    pub(crate) pieces: u32,
}
