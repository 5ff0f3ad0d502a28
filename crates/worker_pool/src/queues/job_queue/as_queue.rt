//! `JobQueue` as a `Queue`: the steps of a put, a rest and a stop, in their order.

use crate::queues::job_queue::job_seat::JobSeat;
use crate::queues::job_queue::opening::{open_point, open_rows};
use crate::queues::job_queue::stop::StopTable;
use crate::queues::job_queue::{JobQueue, stop};
use crate::queues::queue::{NewQueue, Queue};
use event_count::WaitPoint;
use run_queue::Rows;
use std::alloc::{AllocError, Allocator};
use std::snapshot::Snapshot;
use std::sync::Wait;
use steal_walk::Walk;
use waking_rows::Rested;

impl<J, A, W, R> Queue<J, A> for JobQueue<W, R>
where
    A: Allocator + Clone,
    W: WaitPoint<A>,
    R: Rows<J, A>,
{
    ghost use Rattle.worker_pool.specs.Seats.{HasStop, IsRowOf, IsIdle, IsReady};
    ghost use Rattle.worker_pool.specs.Seen.{MayEnd};
    ghost use Rattle.worker_pool.specs.Stops.{stored_of, found_of};

    type Row = R::Seat;

    type Waker = W::Seat;

    type Seat = JobSeat<J, A, W, R>;

    type Stop = StopTable<A>;

    ghost worker_count = { λ queue. queue.workers };

    ghost has_stop = { λ queue stop. HasStop R.Rows W.WaitPoint queue stop.shared };

    ghost is_row = { λ queue row. IsRowOf R.Rows queue.rows row };

    ghost is_waker = { λ queue waker. IsIdle W.WaitPoint queue.point waker };

    ghost is_ready = { IsReady R.Rows W.WaitPoint };

    ghost row_number = { R.number_of };

    ghost waker_number = { W.number_of };

    ghost row_of = { λ seat. seat.row };

    ghost stored_of = { λ seat. stored_of seat.stop };

    ghost may_end = { λ queue seat. MayEnd queue.workers seat.seen (found_of seat.stop) };

    ghost has_put = { λ _ _ _. Unit {0} };

    ghost has_taken = { λ _ _ _. Unit {0} };

    ghost has_rested = { λ _ _ _ _. Unit {0} };

    ghost has_stopped = { λ _ _. Unit {0} };

    ghost keeps_accounts = { R.keeps_accounts };

    ghost puts_of = { R.puts_of };

    ghost takes_of = { R.takes_of };

    fn open(
        alloc: &A,
        workers: u16,
    ) -> Result<NewQueue<Self, Self::Stop, Self::Row, Self::Waker, A>, AllocError> {
        let (rows, row_seats) = open_rows::<J, A, R>(alloc, workers)?;
        let (point, wakers) = open_point(alloc, workers)?;
        let stop = stop::open(alloc)?;
        let queue = JobQueue {
            rows,
            point,
            stop: Snapshot::of(&stop.shared),
            workers,
        };
        Ok(NewQueue {
            queue,
            stop,
            rows: row_seats,
            wakers,
        })
    }

    fn workers(&self) -> u16 {
        self.workers
    }

    fn seat(&self, stop: &Self::Stop, row: Self::Row, waker: Self::Waker) -> Self::Seat {
        JobSeat::new(row, waker, stop::new_seat(&stop.shared))
    }

    fn put_front<RT: Wait>(&self, rt: &RT, seat: &mut Self::Seat, job: J) -> Result<(), J> {
        seat.lay_front(rt, self, job)?;
        seat.wake_one(rt, self);
        Ok(())
    }

    fn put_back<RT: Wait>(
        &self,
        rt: &RT,
        seat: &mut Self::Seat,
        row: u16,
        job: J,
    ) -> Result<(), J> {
        seat.lay_back(rt, self, row, job)?;
        seat.wake_one(rt, self);
        Ok(())
    }

    fn take_front<RT: Wait>(&self, rt: &RT, seat: &mut Self::Seat) -> Option<J> {
        self.rows.take_front(rt, &mut seat.row)
    }

    fn take_back<RT: Wait>(&self, rt: &RT, seat: &mut Self::Seat, row: u16) -> Option<J> {
        self.rows.take_back(rt, &mut seat.row, row)
    }

    fn is_cancelled(&self, stop: &Self::Stop, seat: &mut Self::Seat) -> bool {
        stop::is_cancelled(&stop.shared, &mut seat.stop)
    }

    fn rest<RT: Wait>(
        &self,
        rt: &RT,
        stop: &Self::Stop,
        seat: &mut Self::Seat,
        walk: Walk,
    ) -> Rested {
        seat.enter(rt, self);
        let stopped = seat.look_at_stop(self, &stop.shared);
        if let Some(row) = seat.first_full(rt, self, walk) {
            seat.leave(rt, self);
            return Rested::Jobs(row);
        }
        if stopped {
            seat.leave(rt, self);
            return Rested::Ended;
        }
        seat.sleep(rt, self);
        Rested::Slept
    }

    fn stop_all<RT: Wait>(
        &self,
        rt: &RT,
        stop: &Self::Stop,
        seat: &mut Self::Seat,
        cancelled: bool,
    ) {
        seat.tell_all(rt, self, &stop.shared, cancelled);
    }

    fn parts(&self, seat: Self::Seat) -> (Self::Row, Self::Waker) {
        let JobSeat { row, waker, .. } = seat;
        (row, waker)
    }

    fn end(
        self,
        _stop: Self::Stop,
        rows: &mut Vec<Self::Row, A>,
        wakers: &mut Vec<Self::Waker, A>,
    ) -> Vec<J, A> {
        let left = self.rows.drain_with(rows);
        self.point.shut_with(wakers);
        left
    }
}
