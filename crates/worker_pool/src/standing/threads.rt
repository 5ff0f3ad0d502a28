//! Starting workers whose threads own their workplace together, joining these threads, and taking
//! the workplace back. It knows nothing of pools but the opener's seat, by which no thread is
//! joined before all workers were woken to end. `opening/start.rt` does the same for threads of one call.
ghost use Rattle.std.specs.Prelude.{◌≡◌, ◌≢◌, ◌+◌, ◌≤◌, All, IfOk, IfErr, vec_len, vec_capacity};
ghost use Rattle.std.specs.Arc.{arc_value};
ghost use Rattle.worker_pool.specs.Starts.{Returns};
ghost use Rattle.worker_pool.specs.Stops.{open_word};

use crate::opening::start::{Home, STACK, Workplace};
use crate::queues::queue::Queue;
use crate::standing::left_out::{LeftOut, LeftOutBox};
use core::thread::Stack;
use std::alloc::Allocator;
use std::snapshot::Snapshot;
use std::sync::{Arc, Wait};
use std::thread::{Promise, PromisedHandle, Threads, yield_now};

/// The state with which a worker comes home, and its token if it was left out.
type Return<X> = (X, Option<LeftOut>);

/// The promise of a worker's thread: the worker with this number, which began in this state, is
/// still at work at this workplace. It has ended, or shows that it was left out.
#[derive(Drop)]
struct ComeHome<S, X>(Snapshot<S>, Snapshot<X>, Snapshot<u64>);

impl<X, S: Workplace<X>> Promise<Return<X>> for ComeHome<S, X> {
    ghost kept_by = { λ from came.
        Returns S.is_at_work S.has_ended from.0.value from.1.value from.2.value came };
}

/// A workplace that threads own together.
#[derive(Drop)]
pub(crate) struct SharedWorkplace<S: Drop> {
    pub(crate) place: S,
    left_out: LeftOutBox,
}

impl<S: Drop> SharedWorkplace<S> {
    /// Returns the workplace for threads to share.
    pub(crate) fn new(place: S) -> Self
        ensures { result.place ≡ place }
    {
        SharedWorkplace {
            place,
            left_out: LeftOutBox::new(),
        }
    }
}

/// A worker's thread, which owns the workplace together with others.
#[derive(Drop)]
pub(crate) struct WorkerThread<S: Workplace<X>, X: Drop> {
    handle: PromisedHandle<Return<X>, ComeHome<S, X>>,
}

/// Starts the worker `number` with this state, on a thread that shares the workplace. If no thread
/// can be started, returns the state as it is.
fn start_one<RT, X, A, S>(
    rt: &RT,
    shared: &Arc<SharedWorkplace<S>, A>,
    number: u64,
    state: X,
) -> Result<WorkerThread<S, X>, Home<X>>
where
    RT: Threads + Wait + Copy + Send + 'static,
    X: Send + Drop + 'static,
    A: Allocator + Send + Sync + 'static,
    S: Workplace<X> + Drop + Send + Sync + 'static,
    requires at_work { S.is_at_work (arc_value shared.now).place state }
    ensures started { IfOk result (λ child.
        child.handle.promise.0.value ≡ (arc_value shared.now).place) }
    ensures home { IfErr result (λ home. S.is_at_work (arc_value shared.now).place home.state) }
{
    let Ok(theirs) = Arc::try_clone(shared) else {
        return Err(Home::not_asked(state));
    };
    let own_rt = *rt;
    match Stack::new().stack_size(STACK).spawn_with(
        rt,
        ComeHome(
            Snapshot::of(&shared.place),
            Snapshot::of(&state),
            Snapshot::of(&number),
        ),
        move || -> Return<X>
            requires { S.is_at_work (arc_value theirs).place state }
            ensures { Returns S.is_at_work S.has_ended (arc_value theirs).place state number
                result }
        {
            match theirs.left_out.take(&own_rt, number) {
                Some(left_out) => (state, Some(left_out)),
                None => (theirs.place.work(&own_rt, state), None),
            }
        },
    ) {
        Ok(handle) => Ok(WorkerThread { handle }),
        Err(refused) => {
            shared.left_out.leave(rt, number, &refused);
            Err(Home::refused(refused).without_token())
        }
    }
}

/// Starts a worker for each of the states, the last state first, and adds the threads to `threads`.
/// The states for which no thread can be started are added to `ended`.
pub(crate) fn start_each<RT, X, A, S>(
    rt: &RT,
    shared: &Arc<SharedWorkplace<S>, A>,
    mut states: Vec<X, A>,
    mut threads: Vec<WorkerThread<S, X>, A>,
    mut ended: Vec<Home<X>, A>,
) -> (Vec<WorkerThread<S, X>, A>, Vec<Home<X>, A>)
where
    RT: Threads + Wait + Copy + Send + 'static,
    X: Send + Drop + 'static,
    A: Allocator + Send + Sync + 'static,
    S: Workplace<X> + Drop + Send + Sync + 'static,
    requires at_work { All (S.is_at_work (arc_value shared.now).place) states.items }
    requires ours { All (λ child. child.handle.promise.0.value ≡ (arc_value shared.now).place)
        threads.items }
    requires home { All (λ home. S.is_at_work (arc_value shared.now).place home.state) ended.items }
    requires room { vec_len states + vec_len threads ≤ vec_capacity threads }
    requires room_at_home { vec_len states + vec_len threads + vec_len ended
        ≤ vec_capacity ended }
    ensures ours { All (λ child. child.handle.promise.0.value ≡ (arc_value shared.now).place)
        result.0.items }
    ensures home { All (λ home. S.is_at_work (arc_value shared.now).place home.state)
        result.1.items }
    ensures all { vec_len result.0 + vec_len result.1
        ≡ vec_len states + vec_len threads + vec_len ended }
    ensures capacity { vec_capacity result.1 ≡ vec_capacity ended }
{
    let Some(state) = states.pop() else {
        return (threads, ended);
    };
    let number = states.len() as u64;
    match start_one(rt, shared, number, state) {
        Ok(child) => {
            threads.push_reserved(child);
            start_each(rt, shared, states, threads, ended)
        }
        Err(home) => {
            ended.push_reserved(home);
            start_each(rt, shared, states, threads, ended)
        }
    }
}

/// Joins all threads, and adds the states that their workers ended with to `ended`. Before, a stop
/// was stored and all workers were woken through the seat.
pub(crate) fn join_all<RT, X, A, S, J, Q>(
    rt: &RT,
    queue: &Q,
    seat: &Q::Seat,
    mut threads: Vec<WorkerThread<S, X>, A>,
    mut ended: Vec<Home<X>, A>,
) -> Vec<Home<X>, A>
where
    RT: Threads,
    X: Drop,
    A: Allocator,
    S: Workplace<X>,
    Q: Queue<J, A>,
    requires ready { Q.is_ready queue.now seat.now }
    requires stored { Q.stored_of seat.now ≢ open_word }
    requires room { vec_len threads + vec_len ended ≤ vec_capacity ended }
    ensures all { vec_len result ≡ vec_len threads + vec_len ended }
    ensures home { (place : _) → All (λ child. child.handle.promise.0.value ≡ place) threads.items
        → All (λ home. S.is_at_work place home.state) ended.items
        → All (λ home. S.is_at_work place home.state) result.items }
{
    let Some(child) = threads.pop() else {
        return ended;
    };
    let WorkerThread { handle } = child;
    ended.push_reserved(Home::joined(rt, handle).without_token());
    join_all::<_, _, _, _, J, Q>(rt, queue, seat, threads, ended)
}

/// Returns what several threads owned together, once the others have let go of it.
pub(crate) fn take_back<RT: Wait, T, A: Allocator>(rt: &RT, shared: Arc<T, A>) -> T
    ensures { result ≡ arc_value shared }
{
    let mut held = shared;
    for _ in rt.forever() {
        match Arc::try_unwrap(held) {
            Ok(value) => return value,
            Err(back) => {
                held = back;
                yield_now();
            }
        }
    }
    unreachable!()
}
