//! A gate that holds workers back, and counts which turns they take. The bodies of `bodies.rt` use
//! it.
use std::alloc::{AllocError, Global};
use std::sync::Arc;
use std::sync::atomic::{AtomicU64, Ordering};
use worker_pool::Gate;

/// How often a held worker looks at most whether it is let go.
const LOOKS: u64 = 200_000_000;

/// The number of turns without a job after which it is clear that a worker cannot sleep.
const IDLE_TURNS: u64 = 1_000;

/// How often the body looks at most whether the workers have taken these turns.
const PASSES: u64 = 20_000_000;

/// How often the body looks at most whether a task runs while all workers are held.
const EARLY_LOOKS: u64 = 1_000_000;

/// How jobs are scheduled.
#[derive(Clone, Copy)]
pub(crate) enum Way {
    /// One job after the other.
    AtOnce,
    /// While each worker is held before its first turn, until all jobs are scheduled.
    Held,
    /// As with `Held`. After each job the body waits for a while, in which a worker that was not
    /// held would run it.
    HeldLonger,
    /// Each job by itself, after which the workers are left alone for a while.
    Apart,
}

/// What the watch has seen of a body and the workers of its pool.
#[derive(Clone, Copy, Debug, PartialEq, Eq)]
pub(crate) struct Seen {
    /// The number of started workers that the body reported, if it did.
    pub(crate) told: Option<u32>,
    /// How many turns were taken by workers whose numbers are not below `starts`.
    pub(crate) others: u64,
    /// How many turns of held workers began out of their order.
    pub(crate) misnumbered: u64,
    /// Whether workers that were left alone kept taking turns.
    pub(crate) awake: bool,
}

/// A gate that also watches the body of a pool. It counts what it sees.
#[derive(Drop)]
pub(crate) struct Watch {
    way: Way,
    /// The number below which workers are started, if not all are.
    pub(crate) starts: Option<u32>,
    /// A flag that is raised once all jobs are scheduled.
    pub(crate) let_go: Arc<AtomicU64>,
    /// A flag that a task may raise when it runs.
    pub(crate) ran: Arc<AtomicU64>,
    told: AtomicU64,
    turns: AtomicU64,
    others: AtomicU64,
    misnumbered: AtomicU64,
    // The number that each worker's next turn must have.
    next: [AtomicU64; 2],
    awake: AtomicU64,
}

impl Watch {
    pub(crate) fn new(alloc: Global, way: Way, starts: Option<u32>) -> Result<Watch, AllocError> {
        Ok(Watch {
            way,
            starts,
            let_go: Arc::new(alloc, AtomicU64::new(0))?,
            ran: Arc::new(alloc, AtomicU64::new(0))?,
            told: AtomicU64::new(u64::MAX),
            turns: AtomicU64::new(0),
            others: AtomicU64::new(0),
            misnumbered: AtomicU64::new(0),
            next: [AtomicU64::new(0), AtomicU64::new(0)],
            awake: AtomicU64::new(0),
        })
    }

    /// Records how many workers were started, as the body reports it.
    pub(crate) fn tell(&self, workers: u32) {
        self.told.store(u64::from(workers), Ordering::SeqCst);
    }

    /// Is called after a job was scheduled, and waits as the way says.
    pub(crate) fn look_on(&self) {
        match self.way {
            Way::AtOnce | Way::Held => {}
            Way::HeldLonger => wait_for(&self.ran, EARLY_LOOKS),
            Way::Apart => self.look_at_turns(),
        }
    }

    /// Waits for a while, and records whether more than `IDLE_TURNS` turns were taken.
    fn look_at_turns(&self) {
        let before = self.turns.load(Ordering::SeqCst);
        for _ in 0..PASSES {
            if self.turns.load(Ordering::SeqCst).wrapping_sub(before) > IDLE_TURNS {
                self.awake.store(1, Ordering::SeqCst);
                return;
            }
        }
    }

    /// Returns what the watch has seen.
    pub(crate) fn seen(&self) -> Seen {
        Seen {
            told: u32::try_from(self.told.load(Ordering::SeqCst)).ok(),
            others: self.others.load(Ordering::SeqCst),
            misnumbered: self.misnumbered.load(Ordering::SeqCst),
            awake: self.awake.load(Ordering::SeqCst) == 1,
        }
    }
}

/// Looks at a flag until it is raised, at most the given number of times.
fn wait_for(flag: &AtomicU64, looks: u64) {
    for _ in 0..looks {
        if flag.load(Ordering::SeqCst) == 1 {
            return;
        }
    }
}

impl Gate for Watch {
    fn before(&self, worker: u32, turn: u64) {
        if worker >= self.starts.unwrap_or(u32::MAX) {
            self.others.fetch_add(1, Ordering::SeqCst);
        }
        match self.way {
            Way::AtOnce => {}
            Way::Held | Way::HeldLonger => {
                if let Some(next) = self.next.get(worker as usize) {
                    if next.fetch_add(1, Ordering::SeqCst) != turn {
                        self.misnumbered.fetch_add(1, Ordering::SeqCst);
                    }
                }
                if turn == 0 {
                    wait_for(&self.let_go, LOOKS);
                }
            }
            Way::Apart => {
                self.turns.fetch_add(1, Ordering::SeqCst);
            }
        }
    }
}
