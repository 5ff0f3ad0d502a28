//! The events of the model, each one step of a worker or a notifier. `world/step.rt` has a function
//! for each, and `specs/Step.antt` says when each is possible and what it does.

/// One step of the event model. Actors are numbered: workers first, then notifiers. A worker is
/// also a seat, by the same number.
#[derive(Clone, Copy, Debug, PartialEq, Eq)]
pub enum Event {
    /// The row gets one more job, and the actor is to notify.
    Publish { actor: u32, row: u16 },
    /// The seat becomes a pre-waiter.
    Prewait { seat: u16 },
    /// The pre-waiter finds the row empty.
    Pass { seat: u16, row: u16 },
    /// The pre-waiter finds that nobody has stopped the workers.
    PassFlag { seat: u16 },
    /// The pre-waiter gives up waiting.
    Cancel { seat: u16 },
    /// The pre-waiter takes a signal. If there is none, it becomes the top of the stack.
    Commit { seat: u16 },
    /// A pre-waiter gets a signal. If each has one, the actor pops the top of the stack, if any.
    Notify { actor: u32 },
    /// Each pre-waiter gets a signal, and the actor pops the whole stack.
    NotifyAll { actor: u32 },
    /// The first seat that the actor popped and has not unparked gets its token.
    Unpark { actor: u32 },
    /// The seat takes its token and runs again.
    Wake { seat: u16 },
    /// The actor takes a job from the row.
    Take { actor: u32, row: u16 },
    /// The workers are to end, and the actor is to notify.
    Stop { actor: u32 },
    /// The worker ends.
    End { seat: u16 },
}
