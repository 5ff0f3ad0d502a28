//! The phases of a worker. `World` keeps one for each worker.

/// The phase of a worker.
#[derive(Clone, Copy, Debug, PartialEq, Eq)]
pub enum Phase {
    /// The worker runs.
    Running,
    /// The worker has announced that it will wait, and checks once more whether it has to.
    Pre,
    /// The worker waits: it is on the stack, or popped and not unparked, or it has not taken its
    /// token yet.
    Stacked,
    /// The worker has ended, and takes no more steps.
    Ended,
}
