//! What a thread does at the rows and at the wait point of a `JobQueue`. `announcing`, `seen` and
//! `told` carry the order of puts, wakes, looks and sleeps; `as_queue.rt` makes the calls.
ghost use Rattle.std.specs.Prelude.{◌≡◌, ◌<◌, IfErr, IfSome, IsNone};
ghost use Rattle.std.specs.Prelude.{is_ok, true, false, not};
ghost use Rattle.run_queue.specs.Account.{AddsIfOk};
ghost use Rattle.steal_walk.specs.Walk.{VisitsEachOnce};
ghost use Rattle.worker_pool.specs.Seats.{HasSeats, IsReady, HasEntered};
ghost use Rattle.worker_pool.specs.Seen.{none_seen, after_stop_look, HasPassedRows};
ghost use Rattle.worker_pool.specs.Stops.{stored_of, found_of, open_word};
ghost use Rattle.worker_pool.specs.Stops.{closing_word};
ghost use Rattle.worker_pool.specs.Told.{told_of};

use crate::queues::job_queue::seen::{ROWS, Seen};
use crate::queues::job_queue::stop::{StopSeat, StopWord};
use crate::queues::job_queue::told::Told;
use crate::queues::job_queue::{JobQueue, stop};
use event_count::WaitPoint;
use run_queue::Rows;
use std::alloc::Allocator;
use std::marker::PhantomData;
use std::sync::Wait;
use steal_walk::Walk;

/// A thread's seats at the rows, at the wait point and at the stop word, and what the thread has
/// found and done there.
#[derive(Drop)]
pub struct JobSeat<J, A: Allocator, W: WaitPoint<A>, R: Rows<J, A>> {
    pub(crate) row: R::Seat,
    pub(crate) waker: W::Seat,
    pub(crate) stop: StopSeat,
    /// Whether the thread has put a job in since it last woke a worker.
    announcing: bool,
    /// What the thread has found since it entered the wait point.
    pub(crate) seen: Seen,
    /// What the thread had stored in the stop word when it last woke all workers.
    told: Told,
    of: PhantomData<(J, A)>,
}

impl<J, A: Allocator, W: WaitPoint<A>, R: Rows<J, A>> JobSeat<J, A, W, R> {
    /// Returns the seat of a thread that has put in nothing, stored nothing and looked at nothing.
    pub(crate) fn new(row: R::Seat, waker: W::Seat, stop: StopSeat) -> Self
        requires { stored_of stop ≡ open_word }
        ensures row { result.row ≡ row }
        ensures waker { result.waker ≡ waker }
        ensures stop { result.stop ≡ stop }
        ensures silent { result.announcing ≡ false }
        ensures told { told_of result.told ≡ open_word }
    {
        let told = Told::nothing(&stop);
        JobSeat {
            row,
            waker,
            stop,
            announcing: false,
            seen: Seen::nothing(),
            told,
            of: PhantomData,
        }
    }

    /// Puts a job in at the front of the thread's own row, or returns it if the row is full. If it
    /// was put in, a worker is to be woken.
    pub(crate) fn lay_front<RT: Wait>(
        &mut self,
        rt: &RT,
        queue: &JobQueue<W, R>,
        job: J,
    ) -> Result<(), J>
        requires ready { IsReady R.Rows W.WaitPoint queue.now self.old }
        requires owner { R.number_of self.old.row < R.row_count queue.now.rows }
        ensures seats { HasSeats R.Rows W.WaitPoint queue.now self.new }
        ensures announcing { self.new.announcing ≡ is_ok result }
        ensures returned { IfErr result (λ back. back ≡ job) }
        ensures number { R.number_of self.new.row ≡ R.number_of self.old.row }
        ensures stop { self.new.stop ≡ self.old.stop }
        ensures told { self.new.told ≡ self.old.told }
        ensures puts { R.keeps_accounts
            → AddsIfOk result job (R.puts_of self.old.row) (R.puts_of self.new.row) }
        ensures takes { R.keeps_accounts → R.takes_of self.new.row ≡ R.takes_of self.old.row }
    {
        queue.rows.put_front(rt, &mut self.row, job)?;
        self.announcing = true;
        Ok(())
    }

    /// Puts a job in at the back of a row, or returns it if the row is full. If it was put in, a
    /// worker is to be woken.
    pub(crate) fn lay_back<RT: Wait>(
        &mut self,
        rt: &RT,
        queue: &JobQueue<W, R>,
        row: u16,
        job: J,
    ) -> Result<(), J>
        requires ready { IsReady R.Rows W.WaitPoint queue.now self.old }
        requires row { row < R.row_count queue.now.rows }
        ensures seats { HasSeats R.Rows W.WaitPoint queue.now self.new }
        ensures announcing { self.new.announcing ≡ is_ok result }
        ensures returned { IfErr result (λ back. back ≡ job) }
        ensures number { R.number_of self.new.row ≡ R.number_of self.old.row }
        ensures stop { self.new.stop ≡ self.old.stop }
        ensures told { self.new.told ≡ self.old.told }
        ensures puts { R.keeps_accounts
            → AddsIfOk result job (R.puts_of self.old.row) (R.puts_of self.new.row) }
        ensures takes { R.keeps_accounts → R.takes_of self.new.row ≡ R.takes_of self.old.row }
    {
        queue.rows.put_back(rt, &mut self.row, row, job)?;
        self.announcing = true;
        Ok(())
    }

    /// Wakes one waiting worker, if there is one.
    pub(crate) fn wake_one<RT: Wait>(&mut self, rt: &RT, queue: &JobQueue<W, R>)
        requires seats { HasSeats R.Rows W.WaitPoint queue.now self.old }
        requires told { told_of self.old.told ≡ stored_of self.old.stop }
        ensures ready { IsReady R.Rows W.WaitPoint queue.now self.new }
        ensures row { self.new.row ≡ self.old.row }
        ensures stop { self.new.stop ≡ self.old.stop }
    {
        queue.point.wake_one(rt, &mut self.waker);
        self.announcing = false;
    }

    /// Stores that the pool is closing, or that it was cancelled, and then wakes all workers.
    pub(crate) fn tell_all<RT: Wait>(
        &mut self,
        rt: &RT,
        queue: &JobQueue<W, R>,
        stop: &StopWord,
        cancelled: bool,
    )
        requires seats { HasSeats R.Rows W.WaitPoint queue.now self.old }
        requires stop { stop.now ≡ queue.now.stop.value }
        ensures ready { IsReady R.Rows W.WaitPoint queue.now self.new }
        ensures row { self.new.row ≡ self.old.row }
        ensures stored { stored_of self.new.stop ≡ closing_word cancelled }
    {
        stop::set(stop, &mut self.stop, cancelled);
        self.wake_all(rt, queue);
    }

    /// Wakes all waiting workers.
    fn wake_all<RT: Wait>(&mut self, rt: &RT, queue: &JobQueue<W, R>)
        requires { HasSeats R.Rows W.WaitPoint queue.now self.old }
        ensures ready { IsReady R.Rows W.WaitPoint queue.now self.new }
        ensures row { self.new.row ≡ self.old.row }
        ensures stop { self.new.stop ≡ self.old.stop }
    {
        queue.point.wake_all(rt, &mut self.waker);
        self.announcing = false;
        self.told = Told::all(&self.stop);
    }

    /// Enters the wait point: from now on the worker can be woken. It has yet to look at each row
    /// and at the stop word.
    pub(crate) fn enter<RT: Wait>(&mut self, rt: &RT, queue: &JobQueue<W, R>)
        requires ready { IsReady R.Rows W.WaitPoint queue.now self.old }
        requires owner { R.number_of self.old.row < R.row_count queue.now.rows }
        ensures entered { HasEntered R.Rows W.WaitPoint queue.now self.new }
        ensures seen { self.new.seen ≡ none_seen }
        ensures row { self.new.row ≡ self.old.row }
        ensures stop { self.new.stop ≡ self.old.stop }
    {
        queue.point.enter(rt, &mut self.waker);
        self.seen = Seen::nothing();
    }

    /// Loads the stop word, and returns whether the pool is closing or cancelled. The worker has yet
    /// to look at each row again.
    pub(crate) fn look_at_stop(&mut self, queue: &JobQueue<W, R>, stop: &StopWord) -> bool
        requires entered { HasEntered R.Rows W.WaitPoint queue.now self.old }
        requires stop { stop.now ≡ queue.now.stop.value }
        ensures entered { HasEntered R.Rows W.WaitPoint queue.now self.new }
        ensures seen { self.new.seen ≡ after_stop_look (found_of self.new.stop) }
        ensures flag { self.new.seen.flag ≡ not result }
        ensures stopped { self.new.seen.stopped ≡ result }
        ensures row { self.new.row ≡ self.old.row }
        ensures stored { stored_of self.new.stop ≡ stored_of self.old.stop }
    {
        let is_set = stop::is_set(stop, &mut self.stop);
        self.seen = Seen {
            rows: [false; ROWS],
            flag: !is_set,
            stopped: is_set,
        };
        is_set
    }

    /// Looks at all rows of the walk, and returns the first in which it saw a job.
    pub(crate) fn first_full<RT: Wait>(
        &mut self,
        rt: &RT,
        queue: &JobQueue<W, R>,
        walk: Walk,
    ) -> Option<u16>
        requires entered { HasEntered R.Rows W.WaitPoint queue.now self.old }
        requires walk { VisitsEachOnce 0 (R.row_count queue.now.rows) walk }
        ensures entered { HasEntered R.Rows W.WaitPoint queue.now self.new }
        ensures inside { IfSome result (λ row. row < R.row_count queue.now.rows) }
        ensures passed { IsNone result
            → HasPassedRows (R.row_count queue.now.rows) self.new.seen }
        ensures flag { self.new.seen.flag ≡ self.old.seen.flag }
        ensures stopped { self.new.seen.stopped ≡ self.old.seen.stopped }
        ensures stop { self.new.stop ≡ self.old.stop }
        ensures number { R.number_of self.new.row ≡ R.number_of self.old.row }
        ensures puts { R.keeps_accounts → R.puts_of self.new.row ≡ R.puts_of self.old.row }
        ensures takes { R.keeps_accounts → R.takes_of self.new.row ≡ R.takes_of self.old.row }
    {
        let mut first = None;
        for row in walk {
            let length = self.seen.look(rt, &queue.rows, &mut self.row, row as u16);
            if length > 0 && first.is_none() {
                first = Some(row as u16);
            }
        }
        first
    }

    /// Sleeps until the worker is woken. Since it entered, it has found each row empty and the pool
    /// open.
    pub(crate) fn sleep<RT: Wait>(&mut self, rt: &RT, queue: &JobQueue<W, R>)
        requires entered { HasEntered R.Rows W.WaitPoint queue.now self.old }
        requires passed { HasPassedRows (R.row_count queue.now.rows) self.old.seen }
        requires flag { self.old.seen.flag ≡ true }
        ensures ready { IsReady R.Rows W.WaitPoint queue.now self.new }
        ensures row { self.new.row ≡ self.old.row }
        ensures stop { self.new.stop ≡ self.old.stop }
    {
        queue.point.sleep(rt, &mut self.waker);
    }

    /// Leaves the wait point without sleeping.
    pub(crate) fn leave<RT: Wait>(&mut self, rt: &RT, queue: &JobQueue<W, R>)
        requires entered { HasEntered R.Rows W.WaitPoint queue.now self.old }
        ensures ready { IsReady R.Rows W.WaitPoint queue.now self.new }
        ensures seen { self.new.seen ≡ self.old.seen }
        ensures row { self.new.row ≡ self.old.row }
        ensures stop { self.new.stop ≡ self.old.stop }
    {
        queue.point.leave(rt, &mut self.waker);
    }
}
