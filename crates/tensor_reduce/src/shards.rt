//! `Shards`: the index lists that contribute to a value, cut into ranges that are evaluated apart.
//! `laws` says that this changes no value; specs/Shards defines the ranges.

ghost use Rattle.std.specs.Prelude.{◌≡◌, ◌<◌, ◌≤◌, ◌*◌, length, slice_index_or};

/// The most shards of a value.
pub(crate) const MOST_SHARDS: u64 = 1024;

/// The index lists of the dropped axes of a reduction, or of the paired axes of a contraction, cut
/// into ranges of one width. The last range may be shorter. There is at least one shard: without
/// index lists it is the empty range.
#[derive(Clone, Copy, Debug, Drop, Eq, PartialEq)]
pub struct Shards {
    inner: u64,
    width: u64,
    ghost some: { 0 < width },
    ghost few: { inner ≤ 1024 * width },
}

impl Shards {
    ghost use Rattle.tensor_reduce.specs.Shards.{shards_in, shards_of, lists_cut, most_shards};

    /// Returns the shards of `inner` index lists. Their width is `block`, or more if there would be
    /// more than 1,024 shards, as with a block of 0. Takes no memory.
    pub fn of(inner: u64, block: u64) -> Shards
        ensures shards { shards_in result ≡ shards_of inner block }
        ensures lists { lists_cut result ≡ inner }
    {
        let width = block.max(inner.div_ceil(MOST_SHARDS));
        // The width is 0 for a block of 0 and no index lists, whose one shard is empty at any
        // width.
        Shards {
            inner,
            width: width.max(1),
        }
    }

    /// Returns the number of shards.
    pub fn count(&self) -> u64
        ensures count { result ≡ length (shards_in self.now) }
        ensures few { result ≤ most_shards }
    {
        self.inner.div_ceil(self.width).max(1)
    }

    /// Returns the first index list of a shard, and the one after its last.
    pub fn range(&self, shard: u64) -> (u64, u64)
        requires { shard < length (shards_in self.now) }
        ensures range { result ≡ slice_index_or (shards_in self.now) shard (0, 0) }
        ensures order { result.0 ≤ result.1 }
        ensures within { result.1 ≤ lists_cut self.now }
    {
        let first = shard * self.width;
        let last = first + self.width.min(self.inner - first);
        (first, last)
    }
}
