//! The grain of parallel work: how many values a leaf has. It changes times alone, and no value.

ghost use Rattle.std.specs.Prelude.{◌≡◌, ◌*◌, ◌/◌, ◌<◌, min};
ghost use Rattle.tensor_reduce.specs.Shards.{most_shards};
ghost use Rattle.tensor_reduce.specs.private.Worth.{IsWorth, IsWorthOf};

use crate::schedule::worth::Load;
use crate::shards::MOST_SHARDS;
use tensor_ops::{BAND_COLUMNS, PAIRED_COLUMNS, WIDE_BAND_COLUMNS};

/// The most leaves for each worker, in a step that combines values. So no worker waits long for the
/// last leaf.
const SHARES: u64 = 4;

/// The least number of columns of a contraction's leaf, if there are as many for each leaf.
const BAND: u64 = BAND_COLUMNS as u64;

/// Up to this number of columns in all, each leaf packs the first operand for itself. So there is
/// one leaf for each worker and no more.
const WIDE_BAND: u64 = WIDE_BAND_COLUMNS as u64;

/// From this number of columns in all on, each leaf packs the first operand for itself, too.
const PAIRED: u64 = PAIRED_COLUMNS as u64;

/// The number of columns that a leaf aims at from [`PAIRED`] columns on, or at least half of it. So
/// packing takes little of the leaf's time.
const WIDE: u64 = 256;

/// What leaves are sized for: the number of workers, and the most places that they take at a time.
#[derive(Clone, Copy, Drop)]
pub(crate) struct Grain {
    pub(crate) workers: u32,
    pub(crate) block: u64,
    ghost some: { 0 < block },
}

impl Grain {
    /// Returns the grain for a step of this cost whose leaves are blocks of its values. Only as
    /// many workers are left as save time.
    pub(crate) fn for_values(self, values: u64, cost: u64) -> Grain
        ensures workers { IsWorthOf values cost (values / self.block) self.workers result.workers }
        ensures block { result.block ≡ self.block }
    {
        self.for_load(Load::new(values, cost, values / self.block))
    }

    /// Returns the grain for a contraction of this cost, whose leaves are whole columns and never
    /// small. Only as many workers are left as save time.
    pub(crate) fn for_columns(self, values: u64, cost: u64) -> Grain
        ensures workers { IsWorthOf values cost 0 self.workers result.workers }
        ensures block { result.block ≡ self.block }
    {
        self.for_load(Load::new(values, cost, 0))
    }

    /// Returns the grain for a step of few values that combine many places, in shards of a block.
    /// Only as many workers are left as save time.
    pub(crate) fn for_shards(self, values: u64, places: u64, cost: u64) -> Grain
        ensures workers { IsWorthOf values cost (min (values * most_shards) (places / self.block))
            self.workers result.workers }
        ensures block { result.block ≡ self.block }
    {
        let most = values.saturating_mul(MOST_SHARDS);
        self.for_load(Load::new(values, cost, most.min(places / self.block)))
    }

    /// Returns the grain for the workers, of those that there are, with which a load takes least
    /// time.
    fn for_load(self, load: Load) -> Grain
        ensures workers { IsWorth load self.workers result.workers }
        ensures block { result.block ≡ self.block }
    {
        Grain {
            workers: load.workers(self.workers),
            block: self.block,
        }
    }

    /// Returns how many values a leaf has of a step that combines values of `places` places. It is
    /// at most a block, and there is a leaf for each block of the places, up to a few for each
    /// worker.
    pub(crate) fn leaf_size(self, values: u64, places: u64) -> u64
        ensures { 0 < result }
    {
        values.div_ceil(self.shares(places)).min(self.block).max(1)
    }

    /// Returns how many values a leaf of a contraction has. These are whole columns of `rows` rows,
    /// since a column that is cut is packed twice. `places` is the size of the larger operand. On
    /// one worker there is one leaf, so that nothing is copied.
    pub(crate) fn leaf_of_columns(self, values: u64, places: u64, rows: u64) -> u64
        ensures { 0 < result }
    {
        let rows = rows.max(1);
        let all = values.div_ceil(rows);
        let shares = self.shares(values.max(places));
        let columns = if all < PAIRED {
            self.narrow(all, shares, rows)
        } else {
            self.wide(all, shares)
        };
        if self.workers <= 1 || columns >= all {
            return values.max(1);
        }
        let whole = if columns < BAND {
            columns
        } else {
            columns / BAND * BAND
        };
        whole.saturating_mul(rows).max(1)
    }

    /// Returns how many of `all` columns a leaf has that finds the first operand packed: about a
    /// block, but not few. If there are few columns in all, there is at most one leaf for each
    /// worker.
    fn narrow(self, all: u64, shares: u64, rows: u64) -> u64
        requires shares { 0 < shares }
        requires rows { 0 < rows }
    {
        let shares = if all <= WIDE_BAND {
            shares.min(u64::from(self.workers.max(1)))
        } else {
            shares
        };
        all.div_ceil(shares).min((self.block / rows).max(BAND))
    }

    /// Returns how many of `all` columns, which are many, a leaf has that packs the first operand
    /// itself. The columns are dealt evenly to the workers, in one turn or several.
    fn wide(self, all: u64, shares: u64) -> u64
        requires shares { 0 < shares }
    {
        let workers = u64::from(self.workers.max(1));
        let turns = all.div_ceil(workers.saturating_mul(WIDE).max(1)).max(1);
        let shares = shares.min(workers.saturating_mul(turns).max(1));
        let columns = all.div_ceil(shares).max(WIDE / 2);
        columns.div_ceil(BAND).saturating_mul(BAND)
    }

    /// Returns the number of leaves for work over the given number of places: one for each block,
    /// up to a few for each worker.
    fn shares(self, places: u64) -> u64
        ensures { 0 < result }
    {
        let most = u64::from(self.workers).saturating_mul(SHARES);
        most.min(places / self.block).max(1)
    }
}
