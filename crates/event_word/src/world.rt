//! The state of the event model: who waits, who is owed a token, and how long the rows are.
//! `specs/World.antt` has this state as plain data, and `specs/Stored.antt` says how the lists here
//! show it: a field that changes here changes there.

ghost use Rattle.std.specs.Prelude.{◌≡◌, [], false, ◌+◌, ◌<◌, ◌≤◌, IfOk, length, map, replicate};
ghost use Rattle.std.specs.Prelude.{slice_get};
ghost use Rattle.std.specs.Prelude.{slice_index, vec_len, vec_capacity};
ghost use Rattle.event_word.specs.Lawful.{Lawful, HasSizes};
ghost use Rattle.event_word.specs.Limits.{most_workers};
ghost use Rattle.event_word.specs.World.{phase_of, owed_by, has_token, length_of, opening_world};

mod debts;
mod step;

use crate::phase::Phase;
use debts::{Debt, nth_owed};
use std::alloc::{AllocError, Allocator, Global};
use std::marker::Model;

/// An event count without threads: a state machine whose steps are events. It allocates all its
/// memory when it is made.
#[derive(Drop)]
pub struct World<A: Allocator = Global> {
    // One entry for each worker: its phase, whether it has passed the stop flag, which rows it has
    // passed, and whether it has a token.
    phases: Vec<Phase, A>,
    flags: Vec<bool, A>,
    passed: Vec<Vec<bool, A>, A>,
    tokens: Vec<bool, A>,
    // The pre-waiters in order of arrival, and how many of them have a signal.
    pre: Vec<u16, A>,
    signals: u64,
    // The parked seats, top first.
    stack: Vec<u16, A>,
    owed: Vec<Debt, A>,
    // One entry for each actor: whether it is to notify.
    announcing: Vec<bool, A>,
    // One entry for each row: how many jobs it has.
    lengths: Vec<u64, A>,
    notifiers: u16,
    stop: u8,
}

impl<A: Allocator> Model for World<A> {
    ghost use Rattle.event_word.specs.World.{World as PlainWorld};

    ghost Value = { PlainWorld };

    ghost use Rattle.event_word.specs.Stored.{world_view, IsStored};

    ghost view = { world_view };

    ghost invariant = { IsStored };
}

impl<A: Allocator> World<A> {
    /// Returns a World in which all `workers` run and all `rows` are empty, or an error if an
    /// allocation fails.
    pub fn new(alloc: A, workers: u16, notifiers: u16, rows: u16) -> Result<World<A>, AllocError>
    where
        A: Clone,
        requires some { 1 ≤ workers }
        requires few { workers ≤ most_workers }
        ensures { IfOk result (λ w. w ≡ opening_world workers notifiers rows) }
    {
        let seats = usize::from(workers);
        let actors = seats + usize::from(notifiers);
        let rows = usize::from(rows);
        Ok(World {
            phases: filled(&alloc, seats, Phase::Running)?,
            flags: filled(&alloc, seats, false)?,
            passed: filled_rows(&alloc, seats, rows)?,
            tokens: filled(&alloc, seats, false)?,
            pre: room_for(&alloc, seats)?,
            signals: 0,
            stack: room_for(&alloc, seats)?,
            owed: room_for(&alloc, seats)?,
            announcing: filled(&alloc, actors, false)?,
            lengths: filled(&alloc, rows, 0)?,
            notifiers,
            stop: 0,
        })
    }

    /// Proves that every World is lawful, whatever events it took. Does nothing.
    pub fn stays_lawful(&self)
        ensures lawful { Lawful self.now }
        ensures sizes { HasSizes (length self.now.phases) (length self.now.owed)
            (length self.now.lengths) self.now }
    {
        // The type's invariant is the fact. The prover knows it once a field is read.
        let _stop = self.stop;
    }

    /// Returns the pre-waiting seats in order of arrival.
    pub fn pre(&self) -> &[u16]
        ensures { result.now ≡ self.now.pre }
    {
        &self.pre
    }

    /// Returns how many pre-waiters have a signal.
    pub fn signals(&self) -> u64
        ensures { result ≡ self.now.signals }
    {
        self.signals
    }

    /// Returns the seats on the stack, top first.
    pub fn stack(&self) -> &[u16]
        ensures { result.now ≡ self.now.stack }
    {
        &self.stack
    }

    /// Returns the seat at `place` among the seats that the actor has popped and not unparked.
    /// Place 0 is the seat that it unparks next. None past the last of them.
    pub fn owed(&self, actor: u32, place: usize) -> Option<u16>
        requires { actor < length self.now.owed }
        ensures { result ≡ slice_get (owed_by self.now actor) place }
    {
        nth_owed(&self.owed, actor, place)
    }

    /// Returns the phase of a seat.
    pub fn phase(&self, seat: u16) -> Phase
        requires { seat < length self.now.phases }
        ensures { result ≡ phase_of self.now seat }
    {
        self.phases[usize::from(seat)]
    }

    /// Returns whether a seat is unparked and has not taken its token.
    pub fn token(&self, seat: u16) -> bool
        requires { seat < length self.now.phases }
        ensures { result ≡ has_token self.now seat }
    {
        self.tokens[usize::from(seat)]
    }

    /// Returns how many jobs a row has.
    pub fn length(&self, row: u16) -> u64
        requires { row < length self.now.lengths }
        ensures { result ≡ length_of self.now row }
    {
        self.lengths[usize::from(row)]
    }

    /// Returns 0 at first, 1 once the workers are to end, and 2 once all of them were notified of
    /// this.
    pub fn stop(&self) -> u8
        ensures { result ≡ self.now.stop }
    {
        self.stop
    }
}

/// Returns an empty list with room for `len` elements.
fn room_for<T, A: Allocator + Clone>(alloc: &A, len: usize) -> Result<Vec<T, A>, AllocError>
    ensures items { IfOk result (λ list. list.items ≡ []) }
    ensures exact { IfOk result (λ list. vec_capacity list ≡ len) }
{
    Vec::with_capacity(alloc.clone()?, len)
}

/// Returns a list of `len` copies of the value.
fn filled<T: Copy, A: Allocator + Clone>(
    alloc: &A,
    len: usize,
    value: T,
) -> Result<Vec<T, A>, AllocError>
    ensures { IfOk result (λ list. list.items ≡ replicate len value) }
{
    let mut list = room_for(alloc, len)?;
    list.resize(len, value)?;
    Ok(list)
}

/// Returns `len` lists, each of `rows` times false.
fn filled_rows<A: Allocator + Clone>(
    alloc: &A,
    len: usize,
    rows: usize,
) -> Result<Vec<Vec<bool, A>, A>, AllocError>
    ensures { IfOk result
        (λ list. map (λ row. row.items) list.items ≡ replicate len (replicate rows false)) }
{
    let mut list = room_for(alloc, len)?;
    for _ in 0..len {
        list.push(filled(alloc, rows, false)?)?;
    }
    Ok(list)
}
