//! `SteppedWorld`: what the lock of a `LockedCount` holds. Its invariant is `IsCountWorld`
//! (`specs/LockedCount.antt`).
ghost use Rattle.std.specs.Prelude.{◌≡◌, ◌<◌, ◌≤◌, length, IsTrue, IfOk};
ghost use Rattle.event_word.specs.Fields.{fields_of};
ghost use Rattle.event_word.specs.Play.{IsStep};
ghost use Rattle.event_word.specs.Shown.{shown};
ghost use Rattle.event_count.specs.Limits.{most_waiters};
ghost use Rattle.event_count.specs.Known.{first_world};
ghost use Rattle.event_count.specs.LockedCount.{IsCountWorld, TakesSteps, commit_of, IsCommitIn};
ghost use Rattle.event_count.specs.LockedCount.{Settles, settled};

use crate::answers::CommitIn;
use crate::rule::Sizes;
use event_word::{Event, Fields, NOBODY, Phase, World, pack};
use std::alloc::{AllocError, Allocator, Global};

/// The World of a count, and the sizes with which the count was made. Only steps change the World,
/// so it stays a lawful World of these sizes.
#[derive(Drop)]
pub(crate) struct SteppedWorld<A: Allocator = Global> {
    world: World<A>,
    pub(crate) sizes: Sizes,
    ghost lawful: { IsCountWorld sizes world },
}

impl<A: Allocator> SteppedWorld<A> {
    /// Returns a World in which all waiters run, or an error if an allocation fails.
    pub(crate) fn new(alloc: A, sizes: Sizes) -> Result<SteppedWorld<A>, AllocError>
    where
        A: Clone,
        requires some { 0 < sizes.waiters }
        requires few { sizes.waiters ≤ most_waiters }
        ensures world { IfOk result (λ made. made.world ≡ first_world sizes) }
        ensures sizes { IfOk result (λ made. made.sizes ≡ sizes) }
    {
        let world = World::new(alloc, sizes.waiters, sizes.notifiers, 0)?;
        Ok(SteppedWorld { world, sizes })
    }

    /// Takes the event. Returns false if the event isn't possible now; then nothing changes.
    pub(crate) fn step(&mut self, event: Event) -> bool
        ensures step { IsStep self.old.world event result self.new.world }
        ensures sizes { self.new.sizes ≡ self.old.sizes }
    {
        self.world.step(event)
    }

    /// Passes the flag, and then commits the seat.
    pub(crate) fn commit(&mut self, seat: u16) -> CommitIn
        ensures commit { IsCommitIn self.old.world seat result self.new.world }
        ensures sizes { self.new.sizes ≡ self.old.sizes }
    {
        if !self.take_commit(seat) {
            return CommitIn::Impossible;
        }
        if self.world.phase(seat) == Phase::Stacked {
            CommitIn::Pushed
        } else {
            CommitIn::Consumed
        }
    }

    /// Passes the flag, and then commits the seat. Returns false if one of the two events was not
    /// possible.
    fn take_commit(&mut self, seat: u16) -> bool
        ensures steps { TakesSteps self.old.world (commit_of seat) result self.new.world }
        ensures known { IsTrue result → seat < length self.new.world.phases }
        ensures sizes { self.new.sizes ≡ self.old.sizes }
    {
        self.step(Event::PassFlag { seat }) && self.step(Event::Commit { seat })
    }

    /// Notifies one waiter, and unparks the seat that the notification popped, if any.
    pub(crate) fn notify(&mut self, actor: u32)
        ensures world { Settles self.old.world (Event.Notify actor) self.new.world }
        ensures sizes { self.new.sizes ≡ self.old.sizes }
    {
        if self.step(Event::Notify { actor }) {
            self.unpark_all(actor);
        }
    }

    /// Notifies all waiters, and unparks the seats that were on the stack.
    pub(crate) fn notify_all(&mut self, actor: u32)
        ensures world { Settles self.old.world (Event.NotifyAll actor) self.new.world }
        ensures sizes { self.new.sizes ≡ self.old.sizes }
    {
        if self.step(Event::NotifyAll { actor }) {
            self.unpark_all(actor);
        }
    }

    /// Unparks all seats that the actor owes.
    fn unpark_all(&mut self, actor: u32)
        ensures world { self.new.world ≡ settled self.old.world actor }
        ensures sizes { self.new.sizes ≡ self.old.sizes }
    {
        while self.step(Event::Unpark { actor }) {}
    }

    /// Returns the word that shows this World at epoch 0.
    pub(crate) fn word(&self) -> u64
        ensures { fields_of result ≡ shown self.now.world 0 }
    {
        let top = self.world.stack().first();
        pack(Fields {
            top: top.copied().unwrap_or(NOBODY as u16),
            pre: self.world.pre().len() as u16,
            signals: self.world.signals() as u16,
            epoch: 0,
        })
    }
}
