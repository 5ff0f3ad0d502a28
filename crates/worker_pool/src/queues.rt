//! The queues of a pool: rows of jobs, and the point at which workers wait for jobs. A list of
//! modules.

pub(crate) mod counted_queue;
pub(crate) mod job_queue;
pub(crate) mod queue;
