//! The steps on one element, and on the length of its row. Each step is a play of `plays.rt`, and
//! their order keeps the rule of the table.
ghost use Rattle.std.specs.Prelude.{◌≡◌, ℕ, ◌<◌, ◌≤◌, ◌+◌, ◌++◌, option_to_list, Some, None, true};
ghost use Rattle.std.specs.Prelude.{IfErr, OnOk, OnErr, OnSome, IfSome, IfNone};
ghost use Rattle.run_queue.specs.Account.{AddsIfOk};
ghost use Rattle.run_queue.specs.Elements.{empty_word, ready_word};
ghost use Rattle.run_queue.specs.Lengths.{length_word};
ghost use Rattle.run_queue.specs.Limits.{most_jobs};
ghost use Rattle.run_queue.specs.Positions.{element_at, row_with};
ghost use Rattle.run_queue.specs.Views.{Hit, Missed, looked_at, owing, owed_where};
ghost use Rattle.run_queue.specs.SlotSeats.{elements_of, row_count_of, seat_count_of, rows_id};
ghost use Rattle.run_queue.specs.SlotSeats.{of_key, held_id, puts_in, takes_in, notes_in};

use crate::deque::ROW_JOBS;
use crate::slot_rows::SlotRows;
use crate::slot_rows::contents::{Contents, Known};
use crate::slot_rows::plays::{
    ClaimsIn, ClaimsOut, Looks, Lowers, MakesEmpty, MakesReady, Raises, SeatCount, Shift,
};
use crate::slot_rows::rule::{BUSY, EMPTY, LINE_WORDS, READY};
use crate::slot_rows::seat::Held;
use crate::slot_rows::view::View;
use atomic_table::Seat;
use std::alloc::Allocator;

impl<J, A: Allocator, F: Contents<J>> SlotRows<J, A, F> {
    /// Returns which word of the table has the length of a row.
    pub(crate) fn length_word(&self, row: usize) -> usize
        requires row { row < row_count_of self.now }
        ensures { result ≡ length_word (elements_of self.now) row }
    {
        self.table.slot_count() + LINE_WORDS * (row + 1)
    }

    /// Returns the element at a position of a row.
    pub(crate) fn element(&self, row: usize, position: usize) -> usize
        requires row { row < row_count_of self.now }
        requires position { position < most_jobs }
        ensures at { result ≡ element_at row position }
        ensures near { result < elements_of self.now }
    {
        row * ROW_JOBS + position
    }

    /// Raises the length of an element's row, if the rows have length words. The seat works on the
    /// element.
    fn raise(&self, seat: &mut Seat<Option<J>, View<J>>, element: usize)
        requires of { seat.old.table_id ≡ rows_id self.now }
        requires near { element < elements_of self.now }
        requires one_part { seat.old.me.0.parts ≡ 1 }
        requires works { seat.old.me.0.busy ≡ Some element }
        requires none_owed { seat.old.me.0.owes ≡ None }
        ensures of { seat.new.table_id ≡ seat.old.table_id }
        ensures owes { seat.new.me.0 ≡ owing seat.old.me.0 (owed_where F.counted element) }
        ensures held { seat.new.me.1 ≡ seat.old.me.1 }
    {
        if !F::have_lengths() {
            return;
        }
        let word = self.length_word(element / ROW_JOBS);
        self.table.shared.fetch_add::<Raises>(seat, word, 1);
    }

    /// Lowers the length of an element's row, if the rows have length words. The seat took the
    /// element's job, and made the element empty.
    fn lower(&self, seat: &mut Seat<Option<J>, View<J>>, element: usize)
        requires of { seat.old.table_id ≡ rows_id self.now }
        requires near { element < elements_of self.now }
        requires one_part { seat.old.me.0.parts ≡ 1 }
        requires given_back { seat.old.me.0.busy ≡ None }
        requires owed { seat.old.me.0.owes ≡ owed_where F.counted element }
        ensures of { seat.new.table_id ≡ seat.old.table_id }
        ensures none_owed { seat.new.me.0 ≡ owing seat.old.me.0 None }
        ensures held { seat.new.me.1 ≡ seat.old.me.1 }
    {
        if !F::have_lengths() {
            return;
        }
        let word = self.length_word(element / ROW_JOBS);
        self.table.shared.fetch_sub::<Lowers>(seat, word, 1);
    }

    /// Loads and returns the length of a row.
    pub(crate) fn look_at<C: SeatCount>(&self, held: &mut Held<J>, row: usize) -> u64
        requires counted { F.counted ≡ true }
        requires of { held_id held.old ≡ rows_id self.now }
        requires row { row < row_count_of self.now }
        requires seats { C.seats ≡ seat_count_of self.now }
        ensures of { held_id held.new ≡ held_id held.old }
        ensures puts { puts_in held.new ≡ puts_in held.old }
        ensures takes { takes_in held.new ≡ takes_in held.old }
        ensures looked { notes_in held.new ≡ looked_at row result (notes_in held.old) }
        ensures few { result ≤ most_jobs + seat_count_of self.now }
    {
        let word = self.length_word(row);
        self.table.shared.load::<Looks<C>>(&mut held.seat, word)
    }

    /// Puts the job into an element, or returns it if the element is not empty. The length is
    /// raised before another seat can take the job.
    pub(crate) fn push_at<M: Shift>(
        &self,
        held: &mut Held<J>,
        element: usize,
        job: J,
    ) -> Result<(), J>
        requires of { held_id held.old ≡ rows_id self.now }
        requires near { element < elements_of self.now }
        requires fits { F.fits (of_key self.now) (row_with element) job }
        ensures of { held_id held.new ≡ held_id held.old }
        ensures returned { IfErr result (λ back. back ≡ job) }
        ensures puts { AddsIfOk result job (puts_in held.old) (puts_in held.new) }
        ensures takes { takes_in held.new ≡ takes_in held.old }
        ensures hit { OnOk result
            (Hit M.shift element empty_word (notes_in held.old) (notes_in held.new)) }
        ensures missed { OnErr result
            (Missed element empty_word (notes_in held.old) (notes_in held.new)) }
    {
        let shared = &self.table.shared;
        let seat = &mut held.seat;
        if shared.compare_exchange::<ClaimsIn<M>>(seat, element, EMPTY, BUSY) != EMPTY {
            return Err(job);
        }
        self.raise(seat, element);
        let before = shared.exchange(seat, element, Some(job));
        let None = before else { unreachable!() };
        shared.store::<MakesReady>(seat, element, READY);
        Ok(())
    }

    /// Takes the job of an element. None if the element is not ready. The length is lowered after
    /// the element was made empty.
    pub(crate) fn pop_at<M: Shift, C: Known<J>>(
        &self,
        held: &mut Held<J>,
        element: usize,
    ) -> Option<J>
        requires of { held_id held.old ≡ rows_id self.now }
        requires near { element < elements_of self.now }
        requires known { (row : ℕ) → (job : J)
            → F.fits (of_key self.now) row job → C.known row job }
        requires fits { (row : ℕ) → (job : J)
            → C.known row job → F.fits (of_key self.now) row job }
        ensures of { held_id held.new ≡ held_id held.old }
        ensures fits { IfSome result (F.fits (of_key self.now) (row_with element)) }
        ensures puts { puts_in held.new ≡ puts_in held.old }
        ensures takes { takes_in held.new ≡ takes_in held.old ++ option_to_list result }
        ensures hit { OnSome result
            (Hit M.shift element ready_word (notes_in held.old) (notes_in held.new)) }
        ensures missed { IfNone result
            (Missed element ready_word (notes_in held.old) (notes_in held.new)) }
    {
        let shared = &self.table.shared;
        let seat = &mut held.seat;
        if shared.compare_exchange::<ClaimsOut<M, F, C>>(seat, element, READY, BUSY) != READY {
            return None;
        }
        let job = shared.exchange(seat, element, None);
        shared.store::<MakesEmpty>(seat, element, EMPTY);
        self.lower(seat, element);
        Some(job.unwrap())
    }
}
