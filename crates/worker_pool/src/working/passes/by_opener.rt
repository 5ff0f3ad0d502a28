//! How the opener of a pool passes jobs on. No contract of `pass` says into which row a job goes.
ghost use Rattle.std.specs.Prelude.{◌≡◌, ◌<◌};
ghost use Rattle.steal_walk.specs.Walk.{place_of};

use crate::queues::queue::Queue;
use crate::working::passes::Passes;
use rand_core::utils::NextWord;
use rand_pcg::Lcg64Xsh32;
use std::alloc::Allocator;
use std::marker::PhantomData;
use std::sync::Wait;

/// The opener's seat at the queue, and its random words.
#[derive(Drop)]
pub(crate) struct OpenerSeat<S: Drop> {
    pub(crate) seat: S,
    pub(crate) random: Lcg64Xsh32,
    /// How many workers were started.
    pub(crate) started: u32,
}

/// The opener's way: jobs go to the backs of rows that random words pick.
pub(crate) struct ByOpener<A, Q>(PhantomData<(A, Q)>);

impl<J, A: Allocator, Q: Queue<J, A>> Passes<J> for ByOpener<A, Q> {
    ghost use Rattle.std.specs.Prelude.{ℕ};

    type Place = Q;

    type Passer = OpenerSeat<Q::Seat>;

    ghost is_ready = { λ queue opener. Q.is_ready queue opener.seat
        × (0 < Q.worker_count queue) };

    // The workers that were started: nobody else takes a job out of a row.
    ghost has_taker = { λ opener. 0 < opener.started };

    ghost Kept = { ℕ × ℕ };

    ghost kept_of = { λ opener. (opener.started, Q.stored_of opener.seat) };

    ghost keeps_accounts = { Q.keeps_accounts };

    ghost puts_of = { λ opener. Q.puts_of (Q.row_of opener.seat) };

    ghost takes_of = { λ opener. Q.takes_of (Q.row_of opener.seat) };

    /// Passes the job to the back of a row that a random word picks. Returns the job if the row is
    /// full or no worker was started.
    fn pass<RT: Wait>(
        rt: &RT,
        queue: &Q,
        opener: &mut OpenerSeat<Q::Seat>,
        job: J,
    ) -> Result<(), J> {
        if opener.started == 0 {
            return Err(job);
        }
        let row = row_at(opener.random.next_word(), queue.workers());
        queue.put_back(rt, &mut opener.seat, row, job)
    }
}

/// Returns the row whose number is `word * rows / 2^32`, rounded down.
fn row_at(word: u32, rows: u16) -> u16
    requires { 0 < rows }
    ensures place { result ≡ place_of word rows }
    ensures below { result < rows }
{
    ((u64::from(word) * u64::from(rows)) >> 32) as u16
}
