//! How many workers save time. Times are in nanoseconds, as on an idle machine of four processors.
//! The rule is defined in specs/private/Worth, which has these numbers; tests/test_starts.py has
//! them too. A worker's start counts three times, since starts are dearer on other machines.

ghost use Rattle.std.specs.Prelude.{◌≡◌, ◌≤◌, ◌+◌, ◌^◌};

/// The time to open and close a pool.
const POOL: u64 = 40_000;

/// What one more worker counts: three times the time to start it and to wait for its end. Workers
/// are started one after the other.
const START: u64 = 180_000;

/// The time to hand out one leaf and to take its values.
const LEAF: u64 = 400;

/// The time to write a thousand values to new memory.
const WRITTEN: u64 = 1_000;

/// The time to copy a thousand values of leaves into the list of all values.
const JOINED: u64 = 1_200;

/// Longer than any time here: thirteen days.
const LONGEST: u64 = 1 << 50;

/// The work of a step.
#[derive(Clone, Copy, Drop)]
pub(crate) struct Load {
    /// The time of one thread to compute the values and to write them.
    work: u64,
    /// The additional time of workers together, to take leaves.
    handing: u64,
    /// The time of the calling thread to join the values of leaves.
    joining: u64,
    ghost small: { work + handing + joining ≤ 2 ^ 52 },
}

impl Load {
    ghost use Rattle.tensor_reduce.specs.private.Worth.{time_on, IsLoadOf, IsQuickest};

    /// Returns the load of computing values, in the given number of leaves. `cost` is the time of
    /// one thread.
    pub(crate) fn new(values: u64, cost: u64, leaves: u64) -> Load
        ensures { IsLoadOf values cost leaves result }
    {
        let writing = values.saturating_mul(WRITTEN) / 1000;
        let joining = values.saturating_mul(JOINED) / 1000;
        Load {
            work: cost.saturating_add(writing).min(LONGEST),
            handing: leaves.saturating_mul(LEAF).min(LONGEST),
            joining: joining.min(LONGEST),
        }
    }

    /// Returns the number of workers with which the load takes least time: at least one, and no
    /// more than asked.
    pub(crate) fn workers(self, asked: u32) -> u32
        ensures least { 1 ≤ result }
        ensures most { 1 ≤ asked → result ≤ asked }
        ensures quickest { IsQuickest self asked result }
    {
        // Starting more workers than this counts as much as the work takes on one thread.
        let most = u64::from(asked).min(self.work / START) as u32;
        let (mut best, mut least) = (1, self.work);
        for fewer in 1..most {
            let workers = fewer + 1;
            let time = self.time_on(workers);
            if time < least {
                (best, least) = (workers, time);
            }
        }
        best
    }

    /// Returns the time that the load takes on the given number of workers. One worker is the
    /// calling thread, which opens no pool.
    fn time_on(self, workers: u32) -> u64
        ensures { result ≡ time_on self workers }
    {
        if workers <= 1 {
            return self.work;
        }
        let workers = u64::from(workers);
        (self.work + self.handing) / workers + self.joining + POOL + START * workers
    }
}
