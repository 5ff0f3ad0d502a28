//! The state of a worker that has come home, and what became of the worker's start. Only this file
//! makes a `Home`, so the number of joined threads can be trusted (`joined_of` of `specs/Starts`).
ghost use Rattle.std.specs.Prelude.{◌≡◌};
ghost use Rattle.worker_pool.specs.declared.opening.start.home.Start.TheVariants.{Joined, Refused};
ghost use Rattle.worker_pool.specs.declared.opening.start.home.Start.TheVariants.{NotAsked};

use std::thread::{Promise, PromisedHandle, SpawnError, Threads};

/// What became of a worker's start.
#[derive(Drop)]
enum Start {
    /// A thread was started, and was joined.
    Joined,
    /// No thread could be made.
    Refused,
    /// No thread was asked for.
    NotAsked,
}

/// The state of a worker that has come home. It says that a thread was joined only if this file has
/// joined that thread.
#[derive(Drop)]
pub(crate) struct Home<X> {
    pub(crate) state: X,
    start: Start,
}

impl<X> Home<X> {
    /// Joins the thread, and returns the state that it ended with.
    pub(crate) fn joined<RT: Threads, P: Promise<X>>(rt: &RT, child: PromisedHandle<X, P>) -> Self
        ensures start { result.start ≡ Joined }
        ensures kept { P.kept_by child.promise result.state }
    {
        Home {
            state: child.join(rt),
            start: Start::Joined,
        }
    }

    /// Calls the function whose thread could not be started, and returns the state that it gives.
    pub(crate) fn refused<F: FnOnce() -> X>(refused: SpawnError<F>) -> Self
        requires { F.pre refused.value }
        ensures start { result.start ≡ Refused }
        ensures called { F.post refused.value result.state }
    {
        Home {
            state: (refused.value)(),
            start: Start::Refused,
        }
    }

    /// Returns the state of a worker for which no thread was asked for.
    pub(crate) fn not_asked(state: X) -> Self
        ensures { result ≡ record { state = state; start = NotAsked } }
    {
        Home {
            state,
            start: Start::NotAsked,
        }
    }
}

impl<X, T: Drop> Home<(X, T)> {
    /// Returns the state alone, of a worker that brought a token home beside it.
    pub(crate) fn without_token(self) -> Home<X>
        ensures state { result.state ≡ self.state.0 }
        ensures start { result.start ≡ self.start }
    {
        let Home { state, start } = self;
        let (state, _token) = state;
        Home { state, start }
    }
}
