//! How a pool is closed, once its workers have all ended. A list of modules.

pub(crate) mod close;
pub(crate) mod closer;
pub(crate) mod gathered;
