//! How a thread that runs a job passes on the kids of the job. `working/run.rt` runs jobs by it;
//! its three kinds are the opener, a worker and the closer.
ghost use Rattle.std.specs.Prelude.{◌≡◌, List, IfOk, IfErr};
ghost use Rattle.run_queue.specs.Account.{AddsIfOk};

mod by_opener;
mod by_worker;

pub(crate) use by_opener::{ByOpener, OpenerSeat};
pub(crate) use by_worker::ByWorker;
use std::sync::Wait;

/// A way to pass on the kids that jobs fork.
pub(crate) trait Passes<J> {
    /// The place that jobs are passed on to.
    type Place;

    /// The thread that runs the jobs.
    type Passer;

    // The passer may pass jobs on in this place.
    ghost is_ready: { Self.Place → Self.Passer → Type 0 };

    // Somebody takes what the passer passes on.
    ghost has_taker: { Self.Passer → Type 0 };

    // What never changes of a passer.
    ghost Kept: { Type 0 };

    ghost kept_of: { Self.Passer → Kept };

    // Whether accounts are kept. If so, `puts_of` are the jobs that were passed on, and `takes_of`
    // are the jobs that came in.
    ghost keeps_accounts: { Type 0 };

    ghost puts_of: { Self.Passer → List J };

    ghost takes_of: { Self.Passer → List J };

    /// Passes a job on, or returns it. The caller must run a returned job at once.
    fn pass<RT: Wait>(
        rt: &RT,
        place: &Self::Place,
        passer: &mut Self::Passer,
        job: J,
    ) -> Result<(), J>
        requires { is_ready place.now passer.old }
        ensures ready { is_ready place.now passer.new }
        ensures kept { kept_of passer.new ≡ kept_of passer.old }
        ensures returned { IfErr result (λ back. back ≡ job) }
        ensures taker { IfOk result (λ _. has_taker passer.old) }
        ensures puts { keeps_accounts
            → AddsIfOk result job (puts_of passer.old) (puts_of passer.new) }
        ensures takes { keeps_accounts → takes_of passer.new ≡ takes_of passer.old };
}
