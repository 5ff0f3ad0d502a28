//! Fork and join: the leaves of a tree, counted by the workers of a pool, and those of many trees,
//! counted in one pool that stays open. `worker_pool/CALLING.md` quotes both.
ghost use Rattle.std.specs.Prelude.{◌≡◌, ◌+◌, ◌^◌, ◌%◌, ◌↔◌, [], ◌∷◌, ◌++◌, IfOk, IsErrOf};
ghost use Rattle.std.specs.Prelude.{sum, sum_by};
ghost use Rattle.worker_pool.specs.Accounts.{Account};
ghost use Rattle.worker_pool.specs.Callers.{IsCaller, StaysCaller, roots_of, stop_of};
ghost use Rattle.worker_pool.specs.Closings.{all_outs};
ghost use Rattle.worker_pool.specs.Laws.{law_of};
ghost use Rattle.worker_pool.specs.Setup.{IsNoPoolSize};
ghost use Rattle.worker_pool.specs.Standing.{roots_in};
ghost use Rattle.uses.specs.Trees.{leaves_of};

use event_count::{EventCount, WaitPoint};
use run_queue::{Rows, SlotRows};
use std::alloc::{AllocError, Global};
use std::sync::Wait;
use std::thread::Threads;
use worker_pool::{
    Caller, Closed, CountedPool, Job, Lists, NoGate, PoolFault, Progress, Setup, Stands, VecLists,
    open_counted, with_pool,
};

/// A tree. One of its kids is lower by one, the other by two. Below height 2 it is a leaf.
#[derive(Debug, Drop)]
struct Tree {
    height: u32,
}

impl Job<Global> for Tree {
    ghost use Rattle.uses.specs.Trees.{KeepsLeaves};

    type Ctx = ();

    type Out = u64;

    type Abandoned = ();

    ghost weight_of = { λ tree. tree.height };

    ghost allows = { λ _ tree progress. KeepsLeaves (λ tree. tree.height) tree progress };

    ghost abandons = { λ _ _ _. Unit {0} };

    fn weight(&self) -> u64 {
        u64::from(self.height)
    }

    fn step(self, _alloc: Global, _ctx: &()) -> Result<Progress<Tree, u64>, AllocError> {
        let Tree { height } = self;
        if height < 2 {
            return Ok(Progress::Done(1));
        }
        let kid = Tree { height: height - 2 };
        let rest = Tree { height: height - 1 };
        Ok(Progress::Fork { kid, rest })
    }

    fn abandon(self, _ctx: &()) {}
}

/// Adds up the numbers, modulo 2^64.
fn added(numbers: &[u64]) -> u64
    ensures { result ≡ sum numbers.now % 2 ^ 64 }
{
    let mut sum = 0u64;
    for number in numbers {
        sum = sum.wrapping_add(*number);
    }
    sum
}

/// Adds up the numbers of all lists, modulo 2^64.
fn total(lists: &[Vec<u64>]) -> u64
    ensures { result ≡ sum_by (λ list. sum list.items) lists.now % 2 ^ 64 }
{
    let mut sum = 0u64;
    for list in lists {
        sum = sum.wrapping_add(added(list));
    }
    sum
}

/// Runs the job `root` and its kids in a pool over such a wait point, such rows and such lists, and
/// returns what the pool leaves.
fn run_root<W, R, L, RT, J>(
    rt: &RT,
    alloc: Global,
    setup: &Setup,
    root: J,
) -> Result<Closed<J>, PoolFault>
where
    RT: Threads + Wait + Sync,
    J: Job<Global, Ctx = ()> + Drop + Send,
    J::Out: Send,
    J::Abandoned: Send,
    W: WaitPoint<Global> + Sync,
    W::Seat: Send,
    R: Rows<J, Global> + Sync,
    R::Seat: Send,
    L: Lists<J::Out, Global>,
    ensures account { IfOk result (λ closed.
        Account R.keeps_accounts (law_of J.Job tt) (root ∷ []) [] (all_outs closed.outs)
        closed.left.items closed.refused) }
    ensures none_left { IfOk result (λ closed. closed.left.items ≡ []) }
    ensures bad_workers { IsErrOf result PoolFault.BadWorkers ↔ IsNoPoolSize setup.now.workers }
{
    with_pool::<W, R, L, RT, J, Global, NoGate, _>(
        rt,
        alloc,
        setup,
        &(),
        &NoGate,
        |caller: &mut Caller<'_, J, Global, W, R, L>|
            requires { IsCaller R.Rows W.WaitPoint J.Job L.Lists caller.old }
            ensures stays { StaysCaller R.Rows W.WaitPoint J.Job L.Lists caller.old caller.new }
            ensures more { roots_of caller.new ≡ roots_of caller.old ++ root ∷ [] }
            ensures stop { stop_of caller.new ≡ stop_of caller.old }
        {
            caller.schedule(rt, root);
        },
    )
}

/// Counts the leaves of the tree of this height, modulo 2^64.
pub fn count_leaves<RT: Threads + Wait + Sync>(
    rt: &RT,
    alloc: Global,
    workers: u32,
    height: u32,
) -> Result<u64, PoolFault>
    ensures leaves { IfOk result (λ count. count ≡ leaves_of height % 2 ^ 64) }
    ensures bad_workers { IsErrOf result PoolFault.BadWorkers ↔ IsNoPoolSize workers }
{
    let setup = Setup {
        workers,
        partitions: Vec::new(alloc),
    };
    let root = Tree { height };
    let closed = run_root::<EventCount, SlotRows<Tree>, VecLists, RT, Tree>(
        rt, alloc, &setup, root,
    )?;
    if closed.refused > 0 {
        return Err(PoolFault::NoMemory);
    }
    Ok(total(&closed.outs))
}

/// Schedules a tree of each of these heights.
fn plant<RT: Wait>(rt: &RT, pool: &mut CountedPool<Tree, Global>, heights: &[u32])
    requires { ⟦<CountedPool<Tree, Global> as Stands>⟧.is_standing pool.old }
    ensures standing { ⟦<CountedPool<Tree, Global> as Stands>⟧.is_standing pool.new }
    ensures leaves { sum_by (λ tree. leaves_of tree.height) (roots_in pool.new)
        ≡ sum_by (λ tree. leaves_of tree.height) (roots_in pool.old)
        + sum_by leaves_of heights.now }
{
    let Some((height, rest)) = heights.split_first() else {
        return;
    };
    pool.schedule(rt, Tree { height: *height });
    plant(rt, pool, rest);
}

/// Counts the leaves of the trees of these heights, modulo 2^64. One pool stays open from the first
/// tree to the last.
pub fn count_all_leaves<RT>(
    rt: &RT,
    alloc: Global,
    workers: u32,
    heights: &[u32],
) -> Result<u64, PoolFault>
where
    RT: Threads + Wait + Copy + Send + 'static,
    ensures leaves { IfOk result (λ count. count ≡ sum_by leaves_of heights.now % 2 ^ 64) }
    ensures bad_workers { IsErrOf result PoolFault.BadWorkers ↔ IsNoPoolSize workers }
{
    let setup = Setup {
        workers,
        partitions: Vec::new(alloc),
    };
    let mut pool = open_counted(rt, alloc, &setup, ())?;
    plant(rt, &mut pool, heights);
    let closed = pool.close(rt);
    if closed.refused > 0 {
        return Err(PoolFault::NoMemory);
    }
    Ok(total(&closed.outs))
}
