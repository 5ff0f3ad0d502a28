//! Starting a thread for each worker, and collecting the states of all workers. It knows nothing of
//! pools: the traits `Workplace` and `Opening` say what the threads do. `specs/Starts` has the same
//! cases.
ghost use Rattle.std.specs.Prelude.{◌≡◌, ℕ, ◌+◌, ◌<◌, ◌≤◌, [], All, vec_len, vec_capacity};
ghost use Rattle.std.specs.List.{AllZip};
ghost use Rattle.run_queue.specs.Limits.{most_rows};
ghost use Rattle.worker_pool.specs.Starts.{IsToRun, HasRun, Ends, ComesHome, AsksFirst};
ghost use Rattle.worker_pool.specs.Starts.{joined_of};

mod home;

use core::thread::Stack;
pub(crate) use home::Home;
use std::alloc::Allocator;
use std::snapshot::Snapshot;
use std::sync::Wait;
use std::thread;
use std::thread::{Promise, Scope, Threads};

/// A place where workers work, each with a state of its own.
pub(crate) trait Workplace<X> {
    // A worker in this state is at work here.
    ghost is_at_work: { Self → X → Type 0 };

    // A worker that began in the first of these states has ended in the second.
    ghost has_ended: { Self → X → X → Type 0 };

    /// Works until there is nothing more to do, and returns the worker's state.
    fn work<RT: Wait>(&self, rt: &RT, state: X) -> X
        requires { is_at_work self.now state }
        ensures at_work { is_at_work self.now result }
        ensures ended { has_ended self.now state result };
}

/// The work of the opening thread while the workers work.
pub(crate) trait Opening {
    ghost use Rattle.std.specs.Prelude.{ℕ};

    /// The state that the opening thread has afterwards.
    type State;

    // The work may begin where the given number of workers were started.
    ghost may_begin: { Self → ℕ → Type 0 };

    // The work has ended where the given number of workers were started, and left this state.
    ghost has_left: { Self → ℕ → Self.State → Type 0 };

    /// Does the work, and lets the workers end.
    fn run(self, started: u32) -> Self::State
        requires { may_begin self started }
        ensures { has_left self started result };
}

/// The promise of a worker's thread: a worker that began in this state has ended at this workplace.
#[derive(Drop)]
struct WorkToTheEnd<S, X>(Snapshot<S>, Snapshot<X>);

impl<X, S: Workplace<X>> Promise<X> for WorkToTheEnd<S, X> {
    ghost kept_by = { λ from state.
        Ends S.is_at_work S.has_ended from.0.value from.1.value state };
}

/// The bytes of stack of a worker, which are as many as Rust gives a thread. The C library's
/// default is the limit of `ulimit -s`, commonly four times as much, which leaves room for few
/// workers if memory is limited.
pub(crate) const STACK: usize = 2 << 20;

/// Starts a worker for each of the first `starts` states, and calls `opening` with the number of
/// workers that were started. Returns all states, by number. A worker for which no thread was asked
/// for does nothing. The workers that count as started are those whose threads were joined.
pub(crate) fn run_first<RT, X, A, S, B>(
    rt: &RT,
    workplace: &S,
    starts: u32,
    mut states: Vec<X, A>,
    ended: Vec<Home<X>, A>,
    opening: B,
) -> (Vec<Home<X>, A>, B::State)
where
    RT: Threads + Wait + Sync,
    X: Send + Drop,
    A: Allocator,
    S: Workplace<X> + Sync,
    B: Opening + Drop,
    requires at_work { All (S.is_at_work workplace.now) states.items }
    requires few { vec_len states ≤ most_rows }
    requires none_ended { ended.items ≡ [] }
    requires room { vec_len states ≤ vec_capacity ended }
    requires begins { (started : ℕ) → started ≤ vec_len states → started ≤ starts
        → B.may_begin opening started }
    ensures home { AllZip (ComesHome S.is_at_work S.has_ended workplace.now) states.items
        result.0.items }
    ensures at_work { All (λ home. S.is_at_work workplace.now home.state) result.0.items }
    ensures asked { AsksFirst starts result.0.items }
    ensures all { vec_len result.0 ≡ vec_len states }
    ensures capacity { vec_capacity result.0 ≡ vec_capacity ended }
    ensures few { joined_of result.0.items ≤ starts }
    ensures left { B.has_left opening (joined_of result.0.items) result.1 }
{
    if states.len() > starts as usize {
        let Some(last) = states.pop() else {
            unreachable!()
        };
        let (mut ended, state) = run_first(rt, workplace, starts, states, ended, opening);
        ended.push_reserved(Home::not_asked(last));
        return (ended, state);
    }
    thread::scope(
        thread::scope_env(),
        rt,
        |scope| -> (Vec<Home<X>, A>, B::State)
            requires { IsToRun S.is_at_work B.may_begin workplace.now states ended 0 opening }
            ensures { HasRun S.is_at_work S.has_ended B.has_left workplace.entry.now states ended 0
                opening result }
        { start_all(rt, scope, workplace, states, ended, 0, opening) },
    )
}

/// Starts a worker for the last of the states, and then for the others, so that the first states
/// come home first. If a thread cannot be started, this thread does the worker's work once the
/// opening has ended. The work ends then, and the state comes home.
fn start_all<'s, E, RT, X, A, S, B>(
    rt: &'s RT,
    scope: &Scope<'s, E>,
    workplace: &'s S,
    mut states: Vec<X, A>,
    ended: Vec<Home<X>, A>,
    started: u32,
    opening: B,
) -> (Vec<Home<X>, A>, B::State)
where
    RT: Threads + Wait + Sync,
    X: Send + Drop + 's,
    A: Allocator,
    S: Workplace<X> + Sync,
    B: Opening + Drop,
    requires { IsToRun S.is_at_work B.may_begin workplace.now states ended started opening }
    ensures { HasRun S.is_at_work S.has_ended B.has_left workplace.now states ended started opening
        result }
{
    let Some(next) = states.pop() else {
        return (ended, opening.run(started));
    };
    match Stack::new().stack_size(STACK).spawn_scoped_with(
        scope,
        WorkToTheEnd(Snapshot::of(workplace), Snapshot::of(&next)),
        move || -> X
            requires { S.is_at_work workplace.now next }
            ensures { Ends S.is_at_work S.has_ended workplace.entry.now next result }
        { workplace.work(rt, next) },
    ) {
        Ok(child) => {
            let (mut ended, state) = start_all(
                rt,
                scope,
                workplace,
                states,
                ended,
                started + 1,
                opening,
            );
            ended.push_reserved(Home::joined(rt, child));
            (ended, state)
        }
        Err(refused) => {
            let (mut ended, state) = start_all(
                rt, scope, workplace, states, ended, started, opening,
            );
            ended.push_reserved(Home::refused(refused));
            (ended, state)
        }
    }
}
