//! `Deque`: a row of jobs for one thread, of fixed capacity. `deque_rows.rt` builds the rows of
//! `LockedRows` from it, and `ROW_JOBS` is the capacity of the rows of `SlotRows`, too.

ghost use Rattle.std.specs.Prelude.{◌≡◌, ◌+◌, ◌<◌, ◌≤◌, ◌↔◌, List, [], ◌∷◌, ◌++◌, length, vec_len};
ghost use Rattle.std.specs.Prelude.{vec_capacity, IsTrue, IsOk, IsErr, IfOk, IfErr, IfSome, IfNone};
ghost use Rattle.std.specs.Prelude.{OnOk, OnErr};
ghost use Rattle.std.specs.VecDeque.{deque_len, deque_capacity};
ghost use Rattle.run_queue.specs.Limits.{most_jobs};

use std::alloc::{AllocError, Allocator, Global};
use std::collections::VecDeque;
use std::marker::Model;

/// The most jobs of a row.
pub const ROW_JOBS: usize = 1024;

/// A row of jobs for one thread: a ring over one block of memory, which is allocated when the row
/// is made.
///
/// A push on a full row returns the job. No call moves another job or allocates memory.
#[derive(Drop)]
pub struct Deque<J, A: Allocator = Global> {
    jobs: VecDeque<J, A>,
}

// Clauses see the list of the jobs, front first.
impl<J, A: Allocator> Model for Deque<J, A> {
    ghost Value = { List J };

    ghost view = { λ d. d.jobs.items };

    ghost invariant = { λ d. (deque_len d.jobs ≤ most_jobs) × (most_jobs ≤ deque_capacity d.jobs) };
}

impl<J, A: Allocator> Deque<J, A> {
    /// Returns an empty row with room for `ROW_JOBS` jobs.
    pub fn new(alloc: A) -> Result<Self, AllocError>
        ensures { IfOk result (λ row. row ≡ []) }
    {
        Ok(Deque {
            jobs: VecDeque::with_capacity(alloc, ROW_JOBS)?,
        })
    }

    /// Returns how many jobs the row has.
    pub fn len(&self) -> usize
        ensures count { result ≡ length self.now }
        ensures within { length self.now ≤ most_jobs }
    {
        self.jobs.len()
    }

    /// Returns whether the row has no job.
    pub fn is_empty(&self) -> bool
        ensures { IsTrue result ↔ (self.now ≡ []) }
    {
        self.jobs.is_empty()
    }

    /// Puts a job in front of the others, or returns it if the row is full.
    pub fn push_front(&mut self, job: J) -> Result<(), J>
        ensures room { IsOk result ↔ (length self.old < most_jobs) }
        ensures full { IsErr result ↔ (length self.old ≡ most_jobs) }
        ensures pushed { OnOk result (self.new ≡ job ∷ self.old) }
        ensures unchanged { OnErr result (self.new ≡ self.old) }
        ensures returned { IfErr result (λ back. back ≡ job) }
    {
        if self.len() < ROW_JOBS {
            self.jobs.push_front_reserved(job);
            return Ok(());
        }
        Err(job)
    }

    /// Puts a job behind the others, or returns it if the row is full.
    pub fn push_back(&mut self, job: J) -> Result<(), J>
        ensures room { IsOk result ↔ (length self.old < most_jobs) }
        ensures full { IsErr result ↔ (length self.old ≡ most_jobs) }
        ensures pushed { OnOk result (self.new ≡ self.old ++ job ∷ []) }
        ensures unchanged { OnErr result (self.new ≡ self.old) }
        ensures returned { IfErr result (λ back. back ≡ job) }
    {
        if self.len() < ROW_JOBS {
            self.jobs.push_back_reserved(job);
            return Ok(());
        }
        Err(job)
    }

    /// Takes the first job. None if the row is empty.
    pub fn pop_front(&mut self) -> Option<J>
        ensures popped { IfSome result (λ job. self.old ≡ job ∷ self.new) }
        ensures empty { IfNone result ((self.old ≡ []) × (self.new ≡ [])) }
    {
        self.jobs.pop_front()
    }

    /// Takes the last job. None if the row is empty.
    pub fn pop_back(&mut self) -> Option<J>
        ensures popped { IfSome result (λ job. self.old ≡ self.new ++ job ∷ []) }
        ensures empty { IfNone result ((self.old ≡ []) × (self.new ≡ [])) }
    {
        self.jobs.pop_back()
    }

    /// Moves the jobs to the end of a list, which has room for a full row.
    pub(crate) fn move_into(self, list: &mut Vec<J, A>)
    where
        J: Drop,
        requires { vec_len list.old + most_jobs ≤ vec_capacity list.old }
        ensures items { list.new.items ≡ list.old.items ++ self }
        ensures within { length self ≤ most_jobs }
        ensures capacity { vec_capacity list.new ≡ vec_capacity list.old }
    {
        let Deque { mut jobs } = self;
        while let Some(job) = jobs.pop_front() {
            list.push_reserved(job);
        }
    }
}
