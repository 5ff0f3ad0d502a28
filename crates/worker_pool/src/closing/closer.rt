//! How the thread that closes a pool passes jobs on: it passes on none, and runs each kid at once.
ghost use Rattle.std.specs.Prelude.{[]};

use crate::queues::queue::Queue;
use crate::working::passes::Passes;
use std::alloc::Allocator;
use std::marker::PhantomData;
use std::sync::Wait;

/// The closer's way: it has no rows any more to pass jobs on to.
pub(crate) struct ByCloser<A, Q>(PhantomData<(A, Q)>);

impl<J, A: Allocator, Q: Queue<J, A>> Passes<J> for ByCloser<A, Q> {
    type Place = ();

    type Passer = ();

    ghost is_ready = { λ _ _. Unit {0} };

    ghost has_taker = { λ _. ⊥ };

    ghost Kept = { Unit {0} };

    ghost kept_of = { λ _. tt };

    ghost keeps_accounts = { Q.keeps_accounts };

    ghost puts_of = { λ _. [] };

    ghost takes_of = { λ _. [] };

    /// Returns each job.
    fn pass<RT: Wait>(_rt: &RT, _place: &(), _closer: &mut (), job: J) -> Result<(), J> {
        Err(job)
    }
}
