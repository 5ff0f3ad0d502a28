//! A job that splits off others, and counts how the jobs end.
use std::alloc::{AllocError, Allocator};
use std::sync::atomic::{AtomicU64, Ordering};
use worker_pool::{Job, Progress};

/// A job that splits off a job for each of the `more` places after its own, and then leaves its
/// place as its out.
#[derive(Debug, Drop, PartialEq)]
pub(crate) struct Splits {
    pub(crate) place: u64,
    pub(crate) more: u64,
}

/// Counts of how the jobs of a pool end.
#[derive(Drop)]
pub(crate) struct Ends {
    /// The place whose job runs out of memory in its last step, if there is one.
    starved_place: Option<u64>,
    steps: AtomicU64,
    starved: AtomicU64,
    abandons: AtomicU64,
}

impl Ends {
    pub(crate) fn new(starved_place: Option<u64>) -> Ends {
        Ends {
            starved_place,
            steps: AtomicU64::new(0),
            starved: AtomicU64::new(0),
            abandons: AtomicU64::new(0),
        }
    }

    /// Returns how many steps were taken.
    pub(crate) fn steps(&self) -> u64 {
        self.steps.load(Ordering::SeqCst)
    }

    /// Returns how many steps ran out of memory.
    pub(crate) fn starved(&self) -> u64 {
        self.starved.load(Ordering::SeqCst)
    }

    /// Returns how often a job was abandoned.
    pub(crate) fn abandons(&self) -> u64 {
        self.abandons.load(Ordering::SeqCst)
    }
}

impl<A: Allocator> Job<A> for Splits {
    type Ctx = Ends;

    type Out = u64;

    type Abandoned = ();

    ghost weight_of = { λ job. job.more };

    ghost allows = { λ _ _ _. Unit {0} };

    ghost abandons = { λ _ _ _. Unit {0} };

    fn weight(&self) -> u64 {
        self.more
    }

    fn step(self, _alloc: A, ends: &Ends) -> Result<Progress<Splits, u64>, AllocError> {
        ends.steps.fetch_add(1, Ordering::SeqCst);
        let Splits { place, more } = self;
        let Some(fewer) = more.checked_sub(1) else {
            if Some(place) == ends.starved_place {
                ends.starved.fetch_add(1, Ordering::SeqCst);
                return Err(AllocError);
            }
            return Ok(Progress::Done(place));
        };
        let kid = Splits {
            place: place.wrapping_add(more),
            more: 0,
        };
        let rest = Splits { place, more: fewer };
        Ok(Progress::Fork { kid, rest })
    }

    fn abandon(self, ends: &Ends) {
        ends.abandons.fetch_add(1, Ordering::SeqCst);
    }
}
