//! The workers of a step: how many there are, and how its places are cut into leaves and batches.
//! Here `parallel_for` is called.

ghost use Rattle.std.specs.Prelude.{◌≡◌, ◌<◌, ◌≤◌, ◌*◌, ◌-◌, ◌^◌, min, IfOk, IfErr};
ghost use Rattle.parallel_for.specs.Faults.{IsBlockLength};
ghost use Rattle.parallel_for.specs.Items.{AreItems};
ghost use Rattle.parallel_for.specs.Setup.{IsPoolSize, AreNoPartitions};
ghost use Rattle.tensor_reduce.specs.private.Batches.{most_items};

use crate::running::batch::Batch;
use crate::schedule::grain::Grain;
use parallel_for::{ForFault, Kernel, Setup, parallel_for};
use std::alloc::Global;
use std::sync::Wait;
use std::thread::Threads;
use tensor_ops::TEXT_ELEMENTS;

/// The most leaves of a step, as many as a text's tensor has values. So the leaves of a large
/// tensor take no more memory than its values.
const MOST_LEAVES: u64 = TEXT_ELEMENTS;

/// How many items of a large tensor a batch has for each worker, unless a leaf has more. Meanwhile
/// the items are held in lists of the leaves and of the batch: 512 KiB of values a worker in each.
const HELD: u64 = 65_536;

/// The workers of a pool that `setup` describes, which is opened for each step or batch, and the
/// number of places that they take at a time.
#[derive(Drop)]
pub(crate) struct Workers<'a, RT> {
    pub(crate) rt: &'a RT,
    pub(crate) alloc: Global,
    pub(crate) setup: &'a Setup,
    pub(crate) block: u64,
    /// How many of the workers take part in a step.
    pub(crate) count: u32,
    ghost some: { 0 < block },
    ghost pool: { IsPoolSize setup.now.workers },
    ghost partitions: { AreNoPartitions setup.now.workers setup.now.partitions.items → ⊥ },
}

impl<'a, RT> Workers<'a, RT> {
    /// Returns what leaves are sized for.
    pub(crate) fn grain(&self) -> Grain
        ensures workers { result.workers ≡ self.now.setup.now.workers }
        ensures block { result.block ≡ self.now.block }
    {
        Grain {
            workers: self.setup.workers,
            block: self.block,
        }
    }

    /// Returns these workers with the given number of them taking part.
    pub(crate) fn few(&self, count: u32) -> Workers<'a, RT>
        ensures count { result.count ≡ count }
        ensures setup { result.setup.now ≡ self.now.setup.now }
        ensures block { result.block ≡ self.now.block }
    {
        Workers {
            rt: self.rt,
            alloc: self.alloc,
            setup: self.setup,
            block: self.block,
            count,
        }
    }

    /// Returns how many places a batch has at most: whole leaves, at least one for each worker.
    fn batch_size(&self, leaf: u64) -> u64
        requires { 0 < leaf }
        ensures some { 0 < result }
        ensures least { min (self.now.count * leaf) (2 ^ 64 - 1) ≤ result }
        ensures most { result ≤ most_items self.now.count leaf }
    {
        let workers = u64::from(self.count).max(1);
        let leaves = (workers * HELD / leaf).max(workers);
        leaves.saturating_mul(leaf)
    }
}

impl<RT: Threads + Wait + Sync> Workers<'_, RT> {
    /// Returns the items of a kernel at the places below `n`, in order. The workers that take part
    /// compute `leaf` items at a time, or more if there would be too many leaves. If one takes
    /// part, the calling thread computes all items at once. More items than a text's tensor has
    /// values are computed batch by batch, so that the lists of leaves take little memory beside
    /// the result.
    pub(crate) fn items<K>(&self, kernel: &K, n: u64, leaf: u64) -> Result<Vec<K::Item>, ForFault>
    where
        K: Kernel + Sync,
        K::Item: Send,
        requires inside { n ≤ K.size kernel.now }
        requires some { 0 < leaf }
        ensures items { IfOk result (λ items. AreItems (K.item_at kernel.now) 0 n items.items) }
        ensures faults { IfErr result (λ fault. fault ≡ ForFault.NoMemory) }
    {
        if self.count <= 1 {
            let leaf = long_leaf(n, n.max(1));
            return parallel_for(self.rt, self.alloc, self.setup, kernel, n, leaf);
        }
        let leaf = long_leaf(n, leaf);
        if n <= TEXT_ELEMENTS {
            return self.pooled(kernel, n, leaf);
        }
        self.batched(kernel, n, leaf)
    }

    /// Returns the items of a kernel at the places below `n`, computed on one pool.
    fn pooled<K>(&self, kernel: &K, n: u64, leaf: u64) -> Result<Vec<K::Item>, ForFault>
    where
        K: Kernel + Sync,
        K::Item: Send,
        requires inside { n ≤ K.size kernel.now }
        requires some { 0 < leaf }
        requires workers { 0 < self.now.count }
        ensures items { IfOk result (λ items. AreItems (K.item_at kernel.now) 0 n items.items) }
        ensures faults { IfErr result (λ fault. fault ≡ ForFault.NoMemory) }
    {
        let leaf = long_leaf(n, leaf);
        if self.count >= self.setup.workers {
            return parallel_for(self.rt, self.alloc, self.setup, kernel, n, leaf);
        }
        let fewer = Setup {
            workers: self.count,
            partitions: Vec::new(self.alloc),
        };
        parallel_for(self.rt, self.alloc, &fewer, kernel, n, leaf)
    }

    /// Returns the items of a kernel at the places below `n`, computed batch by batch, each on a
    /// pool of its own.
    fn batched<K>(&self, kernel: &K, n: u64, leaf: u64) -> Result<Vec<K::Item>, ForFault>
    where
        K: Kernel + Sync,
        K::Item: Send,
        requires inside { n ≤ K.size kernel.now }
        requires some { 0 < leaf }
        requires workers { 0 < self.now.count }
        ensures items { IfOk result (λ items. AreItems (K.item_at kernel.now) 0 n items.items) }
        ensures faults { IfErr result (λ fault. fault ≡ ForFault.NoMemory) }
    {
        let most = self.batch_size(leaf);
        let mut items = Vec::with_capacity(self.alloc, n as usize)?;
        let mut first = 0;
        while first < n {
            let last = first + most.min(n - first);
            let batch = Batch {
                kernel,
                first,
                last,
            };
            let mut found = self.pooled(&batch, last - first, leaf)?;
            items.append(&mut found)?;
            first = last;
        }
        Ok(items)
    }
}

/// Returns how many places a leaf has: `leaf`, or more if there would be too many leaves.
fn long_leaf(n: u64, leaf: u64) -> u64
    requires { 0 < leaf }
    ensures { IsBlockLength n result }
{
    leaf.max(n.div_ceil(MOST_LEAVES))
}
