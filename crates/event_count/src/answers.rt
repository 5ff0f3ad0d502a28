//! The results of the calls of a count. `specs/Tries.antt` and `specs/Waits.antt` say what each
//! result means.

/// How a try to commit ended.
#[derive(Clone, Copy, Debug, PartialEq, Eq)]
pub enum TryCommit {
    /// The seat took a signal, and runs.
    Consumed,
    /// The seat is on the stack, and has to sleep until it takes its token.
    Pushed,
    /// The seat has used all its epochs. It cancelled, whether or not there was a signal, and runs.
    Spent,
    /// Another step came between the look and the exchange. Nothing has changed, except perhaps the
    /// seat's own next word.
    Contended,
}

/// How a try to cancel ended.
#[derive(Clone, Copy, Debug, PartialEq, Eq)]
pub enum TryCancel {
    /// The seat is no pre-waiter any more, and runs.
    Done,
    /// Another step came between the look and the exchange: nothing has changed.
    Contended,
}

/// How a try to notify ended.
#[derive(Clone, Copy, Debug, PartialEq, Eq)]
pub enum TryNotify {
    /// The looked word has nobody to notify: its stack is empty, and each pre-waiter has a signal.
    Nothing,
    /// A pre-waiter got a signal.
    Signalled,
    /// This seat was popped, and the notifier owes it an unpark.
    Popped(u16),
    /// Another step came between the look and the exchange: nothing has changed.
    Contended,
}

/// How a commit ended.
#[derive(Clone, Copy, Debug, PartialEq, Eq)]
pub enum Committed {
    /// The seat took a signal.
    Consumed,
    /// The seat was pushed, slept, and took its token.
    Unparked,
    /// The seat has used all its epochs. It cancelled, whether or not there was a signal.
    Spent,
}

/// How a commit ended in the World behind a lock.
#[derive(Clone, Copy, Debug, PartialEq, Eq)]
pub(crate) enum CommitIn {
    /// The commit was not possible in the World.
    Impossible,
    /// The seat took a signal, and runs.
    Consumed,
    /// The seat is on the stack, and has to sleep until it takes its token.
    Pushed,
}

/// How a try to notify all ended.
#[derive(Clone, Copy, Debug, PartialEq, Eq)]
pub enum TryNotifyAll {
    /// The looked word has nobody to notify: its stack is empty, and each pre-waiter has a signal.
    Nothing,
    /// Each pre-waiter has a signal, and the notifier owes each seat of the stack an unpark.
    Taken,
    /// Another step came between the look and the exchange: nothing has changed.
    Contended,
}

/// How a look at the stop word and all rows ended.
#[derive(Clone, Copy, Debug, PartialEq, Eq)]
pub enum PassAll {
    /// Nobody has stopped the count, and each row was found empty.
    Passed,
    /// Somebody has stopped the count.
    Stopped,
    /// This row has jobs.
    Jobs(u16),
}
