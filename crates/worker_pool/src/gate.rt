//! A function that is called before each turn of a worker. `working/worker.rt` calls it; no
//! contract mentions it, so tests can use it to hold workers back.

/// A function that a worker calls before each of its turns, on its own thread. Tests hold workers
/// back with it.
pub trait Gate {
    /// Is called with the worker's number, and the number of its turn from 0 on. The number of a
    /// turn stays at `u64::MAX` once it is reached.
    fn before(&self, worker: u32, turn: u64);
}

/// A gate that holds no worker back.
#[derive(Clone, Copy, Debug, PartialEq, Eq)]
pub struct NoGate;

impl Gate for NoGate {
    fn before(&self, _worker: u32, _turn: u64) {}
}
