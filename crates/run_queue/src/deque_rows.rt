//! `DequeRows`: one deque for each row, for the thread that holds their lock. `locked_rows.rt`
//! alone uses it.

ghost use Rattle.std.specs.Prelude.{◌≡◌, ◌*◌, ◌<◌, ◌≤◌, ◌↔◌, List, [], ◌∷◌, ◌++◌, length};
ghost use Rattle.std.specs.Prelude.{replicate, slice_set, vec_len, vec_capacity, IsOk, IfOk, IfErr};
ghost use Rattle.std.specs.Prelude.{IfSome, IfNone, OnOk, OnErr};
ghost use Rattle.std.specs.List.{flat_map};
ghost use Rattle.run_queue.specs.Limits.{most_jobs};
ghost use Rattle.run_queue.specs.Grid.{row_of};

use crate::deque::{Deque, ROW_JOBS};
use crate::room::room_for;
use std::alloc::{AllocError, Allocator};
use std::marker::Model;

/// Rows for one thread at a time, and room for a list of all their jobs.
#[derive(Drop)]
pub(crate) struct DequeRows<J, A: Allocator> {
    deques: Vec<Deque<J, A>, A>,
    left: Vec<J, A>,
}

// Clauses see a list of rows, each the list of its jobs, front first.
impl<J, A: Allocator> Model for DequeRows<J, A> {
    ghost Value = { List (List J) };

    ghost view = { λ r. r.deques.items };

    ghost invariant = { λ r.
        (r.left.items ≡ []) × (vec_len r.deques * most_jobs ≤ vec_capacity r.left) };
}

impl<J: Drop, A: Allocator> DequeRows<J, A> {
    /// Returns `count` empty rows, or an error if an allocation fails.
    pub(crate) fn new(alloc: &A, count: u16) -> Result<Self, AllocError>
    where
        A: Clone,
        ensures { IfOk result (λ rows. rows ≡ replicate count []) }
    {
        let left = room_for(alloc, usize::from(count) * ROW_JOBS)?;
        let deques = empty_deques(alloc, count)?;
        Ok(DequeRows { deques, left })
    }

    /// Returns how many jobs a row has; 0 if there is no such row.
    pub(crate) fn row_len(&self, row: usize) -> usize
        ensures count { result ≡ length (row_of self.now row) }
        ensures within { result ≤ most_jobs }
    {
        match self.deques.get(row) {
            Some(deque) => deque.len(),
            None => 0,
        }
    }

    /// Puts a job in at the front of a row. Returns the job if the row is full or does not exist.
    pub(crate) fn push_front(&mut self, row: usize, job: J) -> Result<(), J>
        ensures room { IsOk result
            ↔ ((row < length self.old) × (length (row_of self.old row) < most_jobs)) }
        ensures pushed { OnOk result
            (self.new ≡ slice_set self.old row (job ∷ row_of self.old row)) }
        ensures unchanged { OnErr result (self.new ≡ self.old) }
        ensures returned { IfErr result (λ back. back ≡ job) }
    {
        if row >= self.deques.len() {
            return Err(job);
        }
        self.deques[row].push_front(job)
    }

    /// Puts a job in at the back of a row. Returns the job if the row is full or does not exist.
    pub(crate) fn push_back(&mut self, row: usize, job: J) -> Result<(), J>
        ensures room { IsOk result
            ↔ ((row < length self.old) × (length (row_of self.old row) < most_jobs)) }
        ensures pushed { OnOk result
            (self.new ≡ slice_set self.old row (row_of self.old row ++ job ∷ [])) }
        ensures unchanged { OnErr result (self.new ≡ self.old) }
        ensures returned { IfErr result (λ back. back ≡ job) }
    {
        if row >= self.deques.len() {
            return Err(job);
        }
        self.deques[row].push_back(job)
    }

    /// Takes the job at the front of a row. None if the row is empty or does not exist.
    pub(crate) fn pop_front(&mut self, row: usize) -> Option<J>
        ensures popped { IfSome result (λ job. row_of self.old row ≡ job ∷ row_of self.new row) }
        ensures others { self.new ≡ slice_set self.old row (row_of self.new row) }
        ensures empty { IfNone result ((row_of self.old row ≡ []) × (self.new ≡ self.old)) }
    {
        if row >= self.deques.len() {
            return None;
        }
        self.deques[row].pop_front()
    }

    /// Takes the job at the back of a row. None if the row is empty or does not exist.
    pub(crate) fn pop_back(&mut self, row: usize) -> Option<J>
        ensures popped { IfSome result (λ job.
            row_of self.old row ≡ row_of self.new row ++ job ∷ []) }
        ensures others { self.new ≡ slice_set self.old row (row_of self.new row) }
        ensures empty { IfNone result ((row_of self.old row ≡ []) × (self.new ≡ self.old)) }
    {
        if row >= self.deques.len() {
            return None;
        }
        self.deques[row].pop_back()
    }

    /// Returns all jobs, row after row.
    pub(crate) fn into_jobs(self) -> Vec<J, A>
        ensures { result.items ≡ flat_map (λ row. row) self }
    {
        let DequeRows { deques, mut left } = self;
        for deque in deques {
            deque.move_into(&mut left);
        }
        left
    }
}

/// Returns `count` empty rows.
fn empty_deques<J: Drop, A: Allocator + Clone>(
    alloc: &A,
    count: u16,
) -> Result<Vec<Deque<J, A>, A>, AllocError>
    ensures { IfOk result (λ deques. deques.items ≡ replicate count []) }
{
    let mut deques = room_for(alloc, usize::from(count))?;
    for _ in 0..count {
        deques.push_reserved(Deque::new(alloc.clone()?)?);
    }
    Ok(deques)
}
