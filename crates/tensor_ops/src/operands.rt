//! How operands with given dims lie in lists, as reductions, contractions and convolutions read
//! them: rows, strips, runs and lines. The tables of places come from tensor_views, the loops from
//! tensor_loops, tensor_kernels and tensor_scans.

pub(crate) mod along;
pub(crate) mod contraction;
pub(crate) mod operand;
pub(crate) mod reduction;
pub(crate) mod rows;
pub(crate) mod strips;
pub(crate) mod windows;
