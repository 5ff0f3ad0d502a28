//! The events, one function each. Each function is proved to be its case of `Possible` and `effect`
//! (`specs/Step.antt`), so a change here is a change there.

ghost use Rattle.std.specs.Prelude.{◌≡◌, false, ◌<◌, ◌↔◌, ◌==◌, IsTrue, length, position};
ghost use Rattle.std.specs.Prelude.{replicate};
ghost use Rattle.std.specs.Prelude.{slice_index_or, vec_capacity};
ghost use Rattle.std.specs.List.{AllPass};
ghost use Rattle.event_word.specs.Lists.{without};
ghost use Rattle.event_word.specs.Step.{IsFree, IsQuiet};
ghost use Rattle.event_word.specs.Play.{IsStep, Plays, SameSizes};

use super::World;
use super::debts::{Debt, first_owed, owe_all};
use crate::event::Event;
use crate::phase::Phase;
use std::alloc::Allocator;

// The most jobs of a row.
const ROW_LIMIT: u64 = 1 << 20;

impl<A: Allocator> World<A> {
    /// Takes the event. Returns false if the event isn't possible now; then nothing changes.
    pub fn step(&mut self, event: Event) -> bool
        ensures step { IsStep self.old event result self.new }
        ensures sizes { SameSizes self.old self.new }
    {
        self.take_step(event)
    }

    /// Takes the events in turn, and returns how many of them were possible.
    pub fn play(&mut self, events: &[Event]) -> u64
        ensures plays { Plays self.old events.now result self.new }
        ensures sizes { SameSizes self.old self.new }
    {
        let mut taken = 0;
        for event in events {
            taken += u64::from(self.step(*event));
        }
        taken
    }

    fn take_step(&mut self, event: Event) -> bool
        ensures { IsStep self.old event result self.new }
    {
        match event {
            Event::Publish { actor, row } => self.publish(actor, row),
            Event::Prewait { seat } => self.prewait(seat),
            Event::Pass { seat, row } => self.pass(seat, row),
            Event::PassFlag { seat } => self.pass_flag(seat),
            Event::Cancel { seat } => self.cancel(seat),
            Event::Commit { seat } => self.commit(seat),
            Event::Notify { actor } => self.notify(actor),
            Event::NotifyAll { actor } => self.notify_all(actor),
            Event::Unpark { actor } => self.unpark(actor),
            Event::Wake { seat } => self.wake(seat),
            Event::Take { actor, row } => self.take(actor, row),
            Event::Stop { actor } => self.start_stop(actor),
            Event::End { seat } => self.end(seat),
        }
    }

    /// Returns whether the actor owes nothing, and runs if it is a worker.
    fn is_free(&self, actor: u32) -> bool
        ensures { IsTrue result ↔ IsFree self.now actor }
    {
        let place = actor as usize;
        if place >= self.phases.len() + usize::from(self.notifiers) {
            return false;
        }
        if !runs_if_worker(&self.phases, place) {
            return false;
        }
        first_owed(&self.owed, actor).is_none()
    }

    /// Returns whether the actor is free and isn't to notify.
    fn is_quiet(&self, actor: u32) -> bool
        ensures { IsTrue result ↔ IsQuiet self.now actor }
    {
        self.is_free(actor) && !self.announcing[actor as usize]
    }

    /// Returns whether the seat is a worker that is quiet.
    fn is_quiet_seat(&self, seat: u16) -> bool
        ensures { IsTrue result ↔ (seat < length self.now.phases) × IsQuiet self.now seat }
    {
        usize::from(seat) < self.phases.len() && self.is_quiet(u32::from(seat))
    }

    fn publish(&mut self, actor: u32, row: u16) -> bool
        ensures { IsStep self.old (Event.Publish actor row) result self.new }
    {
        let place = usize::from(row);
        if place >= self.lengths.len() || !self.is_quiet(actor) {
            return false;
        }
        if self.lengths[place] >= ROW_LIMIT {
            return false;
        }
        self.announcing[actor as usize] = true;
        self.lengths[place] += 1;
        true
    }

    fn prewait(&mut self, seat: u16) -> bool
        ensures { IsStep self.old (Event.Prewait seat) result self.new }
    {
        if !self.is_quiet_seat(seat) {
            return false;
        }
        let place = usize::from(seat);
        self.phases[place] = Phase::Pre;
        self.flags[place] = false;
        clear(&mut self.passed[place]);
        self.pre.push_reserved(seat);
        true
    }

    fn pass(&mut self, seat: u16, row: u16) -> bool
        ensures { IsStep self.old (Event.Pass seat row) result self.new }
    {
        let place = usize::from(seat);
        let at = usize::from(row);
        if at >= self.lengths.len() || !is_in(&self.phases, place, Phase::Pre) {
            return false;
        }
        if self.lengths[at] > 0 {
            return false;
        }
        self.passed[place][at] = true;
        true
    }

    fn pass_flag(&mut self, seat: u16) -> bool
        ensures { IsStep self.old (Event.PassFlag seat) result self.new }
    {
        let place = usize::from(seat);
        if self.stop != 0 || !is_in(&self.phases, place, Phase::Pre) {
            return false;
        }
        self.flags[place] = true;
        true
    }

    fn cancel(&mut self, seat: u16) -> bool
        ensures { IsStep self.old (Event.Cancel seat) result self.new }
    {
        let place = usize::from(seat);
        if !is_in(&self.phases, place, Phase::Pre) {
            return false;
        }
        // Every other pre-waiter can keep its signal.
        self.signals = self.signals.min(self.pre.len() as u64 - 1);
        self.phases[place] = Phase::Running;
        take_out(&mut self.pre, seat);
        true
    }

    fn commit(&mut self, seat: u16) -> bool
        ensures { IsStep self.old (Event.Commit seat) result self.new }
    {
        let place = usize::from(seat);
        if !is_in(&self.phases, place, Phase::Pre) || !self.flags[place] {
            return false;
        }
        if !are_all_true(&self.passed[place]) {
            return false;
        }
        take_out(&mut self.pre, seat);
        if self.signals > 0 {
            self.signals -= 1;
            self.phases[place] = Phase::Running;
        } else {
            self.phases[place] = Phase::Stacked;
            self.stack.insert(0, seat).unwrap();
        }
        true
    }

    fn notify(&mut self, actor: u32) -> bool
        ensures { IsStep self.old (Event.Notify actor) result self.new }
    {
        if !self.is_free(actor) {
            return false;
        }
        self.announcing[actor as usize] = false;
        if self.signals < self.pre.len() as u64 {
            self.signals += 1;
        } else if !self.stack.is_empty() {
            let seat = self.stack.remove(0);
            self.owed.push_reserved(Debt { actor, seat });
        }
        true
    }

    fn notify_all(&mut self, actor: u32) -> bool
        ensures { IsStep self.old (Event.NotifyAll actor) result self.new }
    {
        if !self.is_free(actor) {
            return false;
        }
        let place = actor as usize;
        self.announcing[place] = false;
        self.signals = self.pre.len() as u64;
        owe_all(&mut self.owed, actor, &self.stack);
        self.stack.clear();
        if self.stop == 1 {
            self.stop = 2;
        }
        true
    }

    fn unpark(&mut self, actor: u32) -> bool
        ensures { IsStep self.old (Event.Unpark actor) result self.new }
    {
        let Some(place) = first_owed(&self.owed, actor) else {
            return false;
        };
        let debt = self.owed.remove(place);
        self.tokens[usize::from(debt.seat)] = true;
        true
    }

    fn wake(&mut self, seat: u16) -> bool
        ensures { IsStep self.old (Event.Wake seat) result self.new }
    {
        let place = usize::from(seat);
        if place >= self.phases.len() || !self.tokens[place] {
            return false;
        }
        self.tokens[place] = false;
        self.phases[place] = Phase::Running;
        true
    }

    fn take(&mut self, actor: u32, row: u16) -> bool
        ensures { IsStep self.old (Event.Take actor row) result self.new }
    {
        let place = usize::from(row);
        if place >= self.lengths.len() || !self.is_free(actor) {
            return false;
        }
        if self.lengths[place] == 0 {
            return false;
        }
        self.lengths[place] -= 1;
        true
    }

    fn start_stop(&mut self, actor: u32) -> bool
        ensures { IsStep self.old (Event.Stop actor) result self.new }
    {
        if self.stop != 0 || !self.is_quiet(actor) {
            return false;
        }
        self.announcing[actor as usize] = true;
        self.stop = 1;
        true
    }

    fn end(&mut self, seat: u16) -> bool
        ensures { IsStep self.old (Event.End seat) result self.new }
    {
        if self.stop == 0 || !self.is_quiet_seat(seat) {
            return false;
        }
        self.phases[usize::from(seat)] = Phase::Ended;
        true
    }
}

/// Returns whether the seat at `place` is in the phase. A place past the last worker counts as
/// ended.
fn is_in(phases: &[Phase], place: usize, phase: Phase) -> bool
    ensures { IsTrue result ↔ (slice_index_or phases.now place Phase.Ended ≡ phase) }
{
    phases.get(place).copied().unwrap_or(Phase::Ended) == phase
}

/// Returns whether the actor at `place` runs, if it is a worker. True for a notifier.
fn runs_if_worker(phases: &[Phase], place: usize) -> bool
    ensures { IsTrue result
        ↔ (place < length phases.now
        → slice_index_or phases.now place Phase.Ended ≡ Phase.Running) }
{
    place >= phases.len() || is_in(phases, place, Phase::Running)
}

/// Returns whether every element of the list is true.
fn are_all_true(list: &[bool]) -> bool
    ensures { IsTrue result ↔ AllPass (λ passed. passed) list.now }
{
    list.iter().all(|passed| *passed)
}

/// Sets every element of the list to false.
fn clear<A: Allocator>(list: &mut Vec<bool, A>)
    ensures { list.new.items ≡ replicate (length list.old.items) false }
{
    list.fill(false);
}

/// Returns the first place at which the seat stands in the list.
fn place_of(list: &[u16], seat: u16) -> Option<usize>
    ensures { result ≡ position (λ other. other == seat) list.now }
{
    list.iter().position(|other| *other == seat)
}

/// Removes the first occurrence of the seat from the list.
fn take_out<A: Allocator>(list: &mut Vec<u16, A>, seat: u16)
    ensures items { list.new.items ≡ without seat list.old.items }
    ensures capacity { vec_capacity list.new ≡ vec_capacity list.old }
{
    if let Some(place) = place_of(list, seat) {
        list.remove(place);
    }
}
