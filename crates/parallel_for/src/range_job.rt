//! A range of places as a job of a pool. Its law (`specs/Steps`) is the one from which
//! `proofs/Covering` shows that the pieces cover the range once.
ghost use Rattle.std.specs.Prelude.{◌≡◌, ◌≤◌, ◌<◌, ◌-◌, ◌+◌, ℕ, IfOk};
ghost use Rattle.pool_barrier.specs.Shares.{share_id, barrier_id, notices_of, given_of};
ghost use Rattle.pool_barrier.specs.Shares.{IsShareOf};
ghost use Rattle.parallel_for.specs.Items.{AreItems};
ghost use Rattle.parallel_for.specs.Leaves.{blocks_of};
ghost use Rattle.parallel_for.specs.Steps.{EitherWay, GaveAll, GaveOne, IsHalved, IsLeaf};

use crate::division::Division;
use crate::halving::{blocks, halve};
use crate::kernel::Kernel;
use crate::piece::Piece;
use pool_barrier::{Barrier, Share};
use std::alloc::{AllocError, Allocator, Global};
use std::marker::PhantomData;
use worker_pool::{Job, Progress};

/// The context that all jobs of one division share: the kernel, the barrier and the length of a
/// block.
#[derive(Drop)]
pub struct RangeContext<K: Kernel + Drop, D: Division, A: Allocator = Global> {
    pub(crate) kernel: K,
    pub(crate) barrier: Barrier<A>,
    block: u64,
    of: PhantomData<D>,
    ghost sized: { K.size kernel ≡ D.size },
    ghost counted: { barrier_id barrier ≡ D.barrier },
    ghost cut: { block ≡ D.block },
    ghost some: { 0 < block },
}

/// A job for the places in `[first, last)`, with a notice for each of their blocks.
#[derive(Drop)]
pub struct RangeJob<K: Kernel, D: Division, A: Allocator = Global> {
    first: u64,
    last: u64,
    share: Share,
    of: PhantomData<(K, D, A)>,
    ghost order: { first < last },
    ghost inside: { last ≤ D.size },
    ghost counted: { share_id share ≡ D.barrier },
    ghost notices: { notices_of share ≡ blocks_of (last - first) D.block },
}

impl<K: Kernel + Drop, D: Division, A: Allocator> RangeContext<K, D, A> {
    /// Returns the context of a division's jobs.
    pub(crate) fn new(kernel: K, barrier: Barrier<A>, block: u64) -> RangeContext<K, D, A>
        requires size { K.size kernel ≡ D.size }
        requires barrier { barrier_id barrier ≡ D.barrier }
        requires block { block ≡ D.block }
        requires some { 0 < block }
        ensures kernel { result.kernel ≡ kernel }
        ensures barrier { result.barrier ≡ barrier }
    {
        RangeContext {
            kernel,
            barrier,
            block,
            of: PhantomData,
        }
    }

    /// Returns the items of a leaf, and gives its notice. The notice is given even if the leaf ran
    /// out of memory, so that the caller's wait ends.
    fn leaf(
        &self,
        alloc: A,
        first: u64,
        last: u64,
        share: &mut Share,
    ) -> Result<Vec<K::Item, A>, AllocError>
        requires order { first ≤ last }
        requires inside { last ≤ D.size }
        requires of { IsShareOf self.now.barrier share.old }
        requires notice { 0 < notices_of share.old }
        ensures items { IfOk result (λ items.
            AreItems (K.item_at self.now.kernel) first last items.items) }
        ensures counted { GaveOne share.old share.new }
    {
        let filled = self.kernel.fill(alloc, first, last);
        self.barrier.notify(share);
        filled
    }
}

impl<K: Kernel, D: Division, A: Allocator> RangeJob<K, D, A> {
    /// Returns one job for all places below `n`.
    pub(crate) fn root(n: u64, share: Share) -> RangeJob<K, D, A>
        requires some { 0 < n }
        requires inside { n ≤ D.size }
        requires barrier { share_id share ≡ D.barrier }
        requires notices { notices_of share ≡ blocks_of n D.block }
        ensures first { result.first ≡ 0 }
        ensures last { result.last ≡ n }
    {
        RangeJob {
            first: 0,
            last: n,
            share,
            of: PhantomData,
        }
    }
}

// A step forks the upper part of the range if it is longer than a block. Otherwise it computes the
// range and gives its notice.
impl<K: Kernel + Drop, D: Division, A: Allocator> Job<A> for RangeJob<K, D, A> {
    type Ctx = RangeContext<K, D, A>;

    type Out = Piece<K::Item, A>;

    /// The job's share, whose notices were all given.
    type Abandoned = Share;

    ghost weight_of = { λ job. job.last - job.first };

    ghost allows = { λ context job. EitherWay
        (λ kid rest. IsHalved (job.first, job.last) (kid.first, kid.last)
        (rest.first, rest.last) D.block)
        (λ piece. IsLeaf (K.item_at context.kernel) (job.first, job.last)
        (piece.first, piece.last) piece.items.items D.block × GaveOne job.share piece.share) };

    // An abandoned job gives one notice for each block of its range.
    ghost abandons = { λ _ job share.
        GaveAll (blocks_of (job.last - job.first) D.block) job.share share };

    fn weight(&self) -> u64 {
        self.last - self.first
    }

    fn step(
        self,
        alloc: A,
        ctx: &RangeContext<K, D, A>,
    ) -> Result<Progress<RangeJob<K, D, A>, Piece<K::Item, A>>, AllocError> {
        let RangeJob {
            first,
            last,
            mut share,
            of: _,
        } = self;
        let Some(mid) = halve(first, last, ctx.block) else {
            let items = ctx.leaf(alloc, first, last, &mut share)?;
            return Ok(Progress::Done(Piece {
                first,
                last,
                items,
                share,
            }));
        };
        let upper = ctx.barrier.split(&mut share, blocks(last - mid, ctx.block));
        Ok(Progress::Fork {
            kid: RangeJob {
                first: mid,
                last,
                share: upper,
                of: PhantomData,
            },
            rest: RangeJob {
                first,
                last: mid,
                share,
                of: PhantomData,
            },
        })
    }

    fn abandon(self, ctx: &RangeContext<K, D, A>) -> Share {
        let mut share = self.share;
        give_all(&ctx.barrier, &mut share);
        share
    }
}

/// Gives all notices that the share still has.
fn give_all<A: Allocator>(barrier: &Barrier<A>, share: &mut Share)
    requires { IsShareOf barrier.now share.old }
    ensures of { IsShareOf barrier.now share.new }
    ensures left { notices_of share.new ≡ 0 }
    ensures given { given_of share.new ≡ given_of share.old + notices_of share.old }
{
    while share.notices() > 0 {
        barrier.notify(share);
    }
}
