//! `JobQueue`: any rows and any wait point as a `Queue`. Whatever such a queue needs beside its
//! rows and its point is in this folder: the stop word, the order of puts, looks, wakes and sleeps,
//! and what a seat has found and done.

mod as_queue;
pub(crate) mod job_seat;
mod opening;
mod seen;
pub(crate) mod stop;
mod stop_view;
mod told;

use crate::queues::job_queue::stop::StopWord;
use std::snapshot::Snapshot;

/// Any rows, and any point at which workers wait.
#[derive(Drop)]
pub struct JobQueue<W: Drop, R: Drop> {
    rows: R,
    point: W,
    /// The stop word. It takes no memory: contracts alone see it.
    stop: Snapshot<StopWord>,
    /// How many workers the setup has.
    workers: u16,
}
