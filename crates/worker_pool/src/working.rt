//! What workers do, and what they share. A list of modules.

pub(crate) mod home_rows;
pub(crate) mod passes;
pub(crate) mod pool;
pub(crate) mod run;
pub(crate) mod worker;
