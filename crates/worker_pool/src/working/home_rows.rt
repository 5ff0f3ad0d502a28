//! The partition in which a worker looks before it looks in all rows. `specs/Setup` (`home_of`)
//! says which one; the order of looking stands in `working/worker.rt`.
ghost use Rattle.std.specs.Prelude.{◌≡◌, ◌-◌, ◌<◌, ◌≤◌, ◌↔◌, All, IfOk, IsNone, IfSome};
ghost use Rattle.worker_pool.specs.Setup.{IsPoolSize, ArePartitions, home_of, whole};

use crate::setup::Setup;
use rand_core::utils::NextWord;
use rand_pcg::Lcg64Xsh32;
use std::alloc::{AllocError, Allocator};
use steal_walk::{Coprimes, Partition, Walk};

/// A worker's partition, and the coprimes from which its walks are made.
#[derive(Drop)]
pub(crate) struct HomeRows<A: Allocator> {
    pub(crate) rows: Partition,
    coprimes: Coprimes<A>,
    ghost sized: { coprimes ≡ rows.limit - rows.start },
}

impl<A: Allocator> HomeRows<A> {
    /// Returns the walk over the partition that the next random word picks.
    pub(crate) fn walk(&self, random: &mut Lcg64Xsh32) -> Walk
        ensures { All (λ row. row < self.now.rows.limit) result }
    {
        let (start, limit) = (self.rows.start(), self.rows.limit());
        Walk::of(random.next_word(), start, limit, &self.coprimes)
    }
}

/// Returns the partition of the worker `number`, or `None` if it is the whole pool.
pub(crate) fn home_rows_of<A: Allocator + Clone>(
    alloc: &A,
    setup: &Setup<A>,
    number: u32,
) -> Result<Option<HomeRows<A>>, AllocError>
    requires size { IsPoolSize setup.now.workers }
    requires partitions { ArePartitions setup.now.workers setup.now.partitions.items }
    requires number { number < setup.now.workers }
    ensures none { IfOk result (λ home. IsNone home
        ↔ (home_of setup.now.workers setup.now.partitions.items number
        ≡ whole setup.now.workers)) }
    ensures rows { IfOk result (λ home. IfSome home (λ n. n.rows
        ≡ home_of setup.now.workers setup.now.partitions.items number)) }
    ensures inside { IfOk result (λ home. IfSome home (λ n. n.rows.limit ≤ setup.now.workers)) }
{
    let alloc = alloc.clone()?;
    let Some(&rows) = setup.partitions.get(number as usize) else {
        return Ok(None);
    };
    let size = rows.limit() - rows.start();
    if size == setup.workers {
        return Ok(None);
    }
    let coprimes = Coprimes::new(alloc, size)?;
    Ok(Some(HomeRows { rows, coprimes }))
}
