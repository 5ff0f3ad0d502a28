//! Result dims: a module for each kind of operation, and one for whole expressions. The order of
//! the checks decides the first fault, which the definitions in `specs/` fix and fault_reasons
//! explains.

pub(crate) mod along_dims;
pub(crate) mod concatenation_dims;
pub(crate) mod contraction_dims;
pub(crate) mod convolution_dims;
pub(crate) mod movement_dims;
pub(crate) mod padding_dims;
pub(crate) mod reduction_dims;
pub(crate) mod result_dims;
