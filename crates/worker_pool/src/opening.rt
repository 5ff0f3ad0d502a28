//! How a pool is opened, and how its workers are started and joined. A list of modules.

pub(crate) mod lending;
pub(crate) mod open;
pub(crate) mod opener_state;
pub(crate) mod root;
pub(crate) mod start;
pub(crate) mod workplace;
