//! Evaluates a range on the workers of a pool. `parallel_for` is the file's only public call.
//! `run_leaves` picks the rows of the pool, which must keep accounts (`proofs/Covering`).
ghost use Rattle.std.specs.Prelude.{◌≡◌, ◌<◌, ◌≤◌, ◌↔◌, All, IfOk, IsErrOf};
ghost use Rattle.pool_barrier.specs.Shares.{barrier_id, notices_of, IsShareOf, IsWaiterOf};
ghost use Rattle.run_queue.specs.Bag.{SameBag};
ghost use Rattle.worker_pool.specs.Scheduled.{IsOnOneCount};
ghost use Rattle.worker_pool.specs.Setup.{IsPoolSize, IsNoPoolSize, ArePartitions};
ghost use Rattle.worker_pool.specs.Setup.{AreNoPartitions};
ghost use Rattle.parallel_for.specs.Faults.{most_leaves, IsBlockLength, IsNoBlockLength};
ghost use Rattle.parallel_for.specs.Items.{AreItems};
ghost use Rattle.parallel_for.specs.Leaves.{blocks_of, leaves_of};
ghost use Rattle.parallel_for.specs.Pieces.{IsRight, all_ranges};

use crate::collector::collect;
use crate::division::Division;
use crate::fault::ForFault;
use crate::halving::blocks;
use crate::kernel::Kernel;
use crate::piece::Piece;
use crate::range_job::{RangeContext, RangeJob};
use pool_barrier::{Barrier, MOST_NOTICES, Share, Waiter};
use std::alloc::{AllocError, Allocator};
use std::marker::Brand;
use std::sync::Wait;
use std::thread::Threads;
use worker_pool::{NoGate, PoolFault, Setup, VecLists, with_counted_root};

/// The most leaves that a range can have: each takes a notice of one barrier.
const MOST_LEAVES: u64 = MOST_NOTICES;

/// Returns the kernel's items at the places below `n`, in order.
///
/// The places are computed in blocks, each by some worker of a pool that the setup describes. The
/// pool is opened for this call alone. It starts at most as many workers as there are blocks, and
/// none for one block. If it starts fewer workers than the setup has, each looks for jobs in the
/// whole pool.
pub fn parallel_for<RT, K, A>(
    rt: &RT,
    alloc: A,
    setup: &Setup<A>,
    kernel: &K,
    n: u64,
    block: u64,
) -> Result<Vec<K::Item, A>, ForFault>
where
    RT: Threads + Wait + Sync,
    K: Kernel + Sync,
    K::Item: Send,
    A: Allocator + Clone + Send + Sync,
    requires { n ≤ K.size kernel.now }
    ensures items { IfOk result (λ items. AreItems (K.item_at kernel.now) 0 n items.items) }

    ensures bad_block { IsErrOf result ForFault.BadBlock ↔ IsNoBlockLength n block }
    ensures bad_workers { IsErrOf result (ForFault.Pool PoolFault.BadWorkers)
        ↔ (IsBlockLength n block × IsNoPoolSize setup.now.workers) }
    ensures bad_partition { IsErrOf result (ForFault.Pool PoolFault.BadPartition)
        ↔ (IsBlockLength n block × IsPoolSize setup.now.workers
        × AreNoPartitions setup.now.workers setup.now.partitions.items) }
    // If the pool runs out of memory, the fault is `NoMemory`.
    ensures no_other { IsErrOf result (ForFault.Pool PoolFault.NoMemory) → ⊥ }

    // A range without places allocates nothing.
    ensures no_memory { IsErrOf result ForFault.NoMemory → 0 < n }
{
    if block == 0 || blocks(n, block) > MOST_LEAVES {
        return Err(ForFault::BadBlock);
    }
    if let Err(fault) = setup.check() {
        return Err(ForFault::Pool(fault));
    }
    if n == 0 {
        return Ok(Vec::new(alloc));
    }
    if n <= block {
        return Ok(kernel.fill(alloc, 0, n)?);
    }
    Ok(fill_leaves(rt, &alloc, setup, kernel, n, block)?)
}

/// Returns the items of several leaves. It starts at most as many workers as there are leaves.
fn fill_leaves<RT, K, A>(
    rt: &RT,
    alloc: &A,
    setup: &Setup<A>,
    kernel: &K,
    n: u64,
    block: u64,
) -> Result<Vec<K::Item, A>, AllocError>
where
    RT: Threads + Wait + Sync,
    K: Kernel + Sync,
    K::Item: Send,
    A: Allocator + Clone + Send + Sync,
    requires inside { n ≤ K.size kernel.now }
    requires several { block < n }
    requires blocks { IsBlockLength n block }
    requires workers { IsPoolSize setup.now.workers }
    requires partitions { ArePartitions setup.now.workers setup.now.partitions.items }
    ensures items { IfOk result (λ items. AreItems (K.item_at kernel.now) 0 n items.items) }
{
    let leaves = blocks(n, block);
    if leaves >= u64::from(setup.workers) {
        return fill_counted(rt, alloc, setup, kernel, n, block);
    }
    let fewer = Setup {
        workers: leaves as u32,
        partitions: Vec::new(alloc.clone()?),
    };
    fill_counted(rt, alloc, &fewer, kernel, n, block)
}

/// Returns the items of several leaves, which a barrier of their own counts.
fn fill_counted<RT, K, A>(
    rt: &RT,
    alloc: &A,
    setup: &Setup<A>,
    kernel: &K,
    n: u64,
    block: u64,
) -> Result<Vec<K::Item, A>, AllocError>
where
    RT: Threads + Wait + Sync,
    K: Kernel + Sync,
    K::Item: Send,
    A: Allocator + Clone + Send + Sync,
    requires inside { n ≤ K.size kernel.now }
    requires several { block < n }
    requires blocks { IsBlockLength n block }
    requires workers { IsPoolSize setup.now.workers }
    requires partitions { ArePartitions setup.now.workers setup.now.partitions.items }
    ensures items { IfOk result (λ items. AreItems (K.item_at kernel.now) 0 n items.items) }
{
    let range = CountedRange::of(alloc.clone()?, n, block)?;
    fill_range::<Brand, RT, &K, A>(rt, alloc, setup, kernel, range)
}

// The places below n, cut into blocks, and a barrier with a notice for each block.
#[derive(Drop)]
struct CountedRange<A: Allocator> {
    n: u64,
    block: u64,
    barrier: Barrier<A>,
    waiter: Waiter,
    share: Share,
    ghost any: { 0 < n },
    ghost some: { 0 < block },
    ghost waits: { IsWaiterOf barrier waiter },
    ghost shares: { IsShareOf barrier share },
    ghost notices: { notices_of share ≡ blocks_of n block },
}

impl<A: Allocator> CountedRange<A> {
    /// Opens a barrier for the blocks of `n` places.
    fn of(alloc: A, n: u64, block: u64) -> Result<CountedRange<A>, AllocError>
        requires any { 0 < n }
        requires blocks { IsBlockLength n block }
        ensures places { IfOk result (λ range. range.n ≡ n) }
        ensures cut { IfOk result (λ range. range.block ≡ block) }
    {
        let Ok((barrier, waiter, share)) = Barrier::new(alloc, blocks(n, block)) else {
            return Err(AllocError);
        };
        Ok(CountedRange {
            n,
            block,
            barrier,
            waiter,
            share,
        })
    }
}

/// Returns the items of the range, whose leaves are jobs of a pool.
fn fill_range<D, RT, K, A>(
    rt: &RT,
    alloc: &A,
    setup: &Setup<A>,
    kernel: K,
    range: CountedRange<A>,
) -> Result<Vec<K::Item, A>, AllocError>
where
    D: Division + Send + Sync,
    RT: Threads + Wait + Sync,
    K: Kernel + Drop + Send + Sync,
    K::Item: Send,
    A: Allocator + Clone + Send + Sync,
    requires size { K.size kernel ≡ D.size }
    requires block { range.block ≡ D.block }
    requires barrier { barrier_id range.barrier ≡ D.barrier }
    requires inside { range.n ≤ D.size }
    requires workers { IsPoolSize setup.now.workers }
    requires partitions { ArePartitions setup.now.workers setup.now.partitions.items }
    ensures items { IfOk result (λ items. AreItems (K.item_at kernel) 0 range.n items.items) }
{
    let CountedRange {
        n,
        block,
        barrier,
        waiter,
        share,
    } = range;
    let ctx = RangeContext::<K, D, A>::new(kernel, barrier, block);
    let pieces = run_leaves(rt, alloc, setup, &ctx, waiter, RangeJob::root(n, share))?;
    collect(alloc, &ctx.kernel, n, block, pieces)
}

/// Returns the pieces of all leaves of a range. The calling thread sleeps until the leaves have
/// run.
fn run_leaves<D, RT, K, A>(
    rt: &RT,
    alloc: &A,
    setup: &Setup<A>,
    ctx: &RangeContext<K, D, A>,
    mut waiter: Waiter,
    root: RangeJob<K, D, A>,
) -> Result<Vec<Vec<Piece<K::Item, A>, A>, A>, AllocError>
where
    D: Division + Send + Sync,
    RT: Threads + Wait + Sync,
    K: Kernel + Drop + Send + Sync,
    K::Item: Send,
    A: Allocator + Clone + Send + Sync,
    requires waiter { IsWaiterOf ctx.now.barrier waiter }
    requires workers { IsPoolSize setup.now.workers }
    requires partitions { ArePartitions setup.now.workers setup.now.partitions.items }
    ensures right { IfOk result (λ lists.
        All (λ pieces. All (IsRight (K.item_at ctx.now.kernel)) pieces.items) lists.items) }
    ensures covered { IfOk result (λ lists.
        SameBag (leaves_of root.first root.last D.block) (all_ranges lists.items)) }
{
    let closed = with_counted_root::<VecLists, _, _, _, _, _>(
        rt,
        alloc.clone()?,
        setup,
        ctx,
        &NoGate,
        root,
        |scheduled|
            requires waiter { IsWaiterOf ctx.now.barrier waiter }
            requires one_count { IsOnOneCount scheduled }
        {
            ctx.barrier.wait(rt, &mut waiter);
        },
    );
    let closed = match closed {
        Ok(closed) => closed,
        Err(PoolFault::NoMemory) => return Err(AllocError),
        Err(PoolFault::BadWorkers | PoolFault::BadPartition) => unreachable!(),
    };
    if closed.refused > 0 {
        return Err(AllocError);
    }
    Ok(closed.outs)
}
