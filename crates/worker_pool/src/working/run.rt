//! Running one job to its end, for workers, the opener and the closer. What became of the job and
//! its kids is `specs/Ran`, from which all accounts are made.
ghost use Rattle.std.specs.Prelude.{◌≡◌, ◌+◌, ◌^◌, ◌<◌, ◌≤◌, length};
ghost use Rattle.worker_pool.specs.Ran.{Ran};
ghost use Rattle.worker_pool.specs.Laws.{law_of};

use crate::job::{Job, Progress};
use crate::lists::Lists;
use crate::working::passes::Passes;
use std::alloc::Allocator;
use std::sync::Wait;

/// Allocates memory for the job's out, and runs the job. If the allocation fails, the job is
/// abandoned. Returns how many jobs were refused.
pub(crate) fn begin<RT, J, A, L, P>(
    rt: &RT,
    alloc: &A,
    ctx: &J::Ctx,
    place: &P::Place,
    passer: &mut P::Passer,
    outs: &mut L::List,
    job: J,
) -> u64
where
    RT: Wait,
    J: Job<A>,
    A: Allocator + Clone,
    L: Lists<J::Out, A>,
    P: Passes<J>,
    requires { P.is_ready place.now passer.old }
    ensures ready { P.is_ready place.now passer.new }
    ensures kept { P.kept_of passer.new ≡ P.kept_of passer.old }
    ensures takes { P.keeps_accounts → P.takes_of passer.new ≡ P.takes_of passer.old }
    ensures ran { Ran P.keeps_accounts (law_of J.Job ctx.now) job
        (P.puts_of passer.old) (P.puts_of passer.new)
        (L.items_of outs.old) (L.items_of outs.new) result }
{
    if L::reserve(outs, 1).is_err() {
        job.abandon(ctx);
        return 1;
    }
    run::<_, _, _, L, P>(rt, alloc, ctx, place, passer, outs, 0, job)
}

/// Takes steps until the job is done, and returns how many jobs were refused. A kid that is not
/// passed on runs at once, before the rest of the job. The list has memory for the job's out and
/// for `owed` more outs, of jobs that are to be resumed later.
fn run<RT, J, A, L, P>(
    rt: &RT,
    alloc: &A,
    ctx: &J::Ctx,
    place: &P::Place,
    passer: &mut P::Passer,
    outs: &mut L::List,
    owed: usize,
    job: J,
) -> u64
where
    RT: Wait,
    J: Job<A>,
    A: Allocator + Clone,
    L: Lists<J::Out, A>,
    P: Passes<J>,
    requires ready { P.is_ready place.now passer.old }
    requires room { length (L.items_of outs.old) + owed + 1 ≤ L.room_of outs.old }
    requires fits { L.room_of outs.old < 2 ^ 63 }
    ensures ready { P.is_ready place.now passer.new }
    ensures kept { P.kept_of passer.new ≡ P.kept_of passer.old }
    ensures takes { P.keeps_accounts → P.takes_of passer.new ≡ P.takes_of passer.old }
    ensures room { length (L.items_of outs.new) + owed ≤ L.room_of outs.new }
    ensures fits { L.room_of outs.new < 2 ^ 63 }
    ensures ran { Ran P.keeps_accounts (law_of J.Job ctx.now) job
        (P.puts_of passer.old) (P.puts_of passer.new)
        (L.items_of outs.old) (L.items_of outs.new) result }
{
    let Ok(mine) = alloc.clone() else {
        job.abandon(ctx);
        return 1;
    };
    match job.step(mine, ctx) {
        Err(_) => 1,
        Ok(Progress::Done(out)) => {
            L::keep(outs, out);
            0
        }
        Ok(Progress::Fork { kid, rest }) => {
            let Err(kid) = P::pass(rt, place, passer, kid) else {
                return run::<_, _, _, L, P>(rt, alloc, ctx, place, passer, outs, owed, rest);
            };
            if L::reserve(outs, owed + 2).is_err() {
                kid.abandon(ctx);
                return run::<_, _, _, L, P>(
                    rt, alloc, ctx, place, passer, outs, owed, rest,
                ).saturating_add(1);
            }
            let refused = run::<_, _, _, L, P>(rt, alloc, ctx, place, passer, outs, owed + 1, kid);
            run::<_, _, _, L, P>(rt, alloc, ctx, place, passer, outs, owed, rest).saturating_add(
                refused,
            )
        }
    }
}
