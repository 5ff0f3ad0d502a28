//! Tests that refuse each allocation of a call in turn. README.md says where a new call belongs.
//!
//! If an allocation is refused, the call reports that it ran out of memory. If the call gets as
//! many allocations as it makes, and no more, its result is the same as with ample memory.
//!
//! A pool reports this only while it is opened. Later it counts the jobs that ran out of memory.
#![tactic(auto)]

#[cfg(test)]
mod calls;
#[cfg(test)]
mod each_call;
#[cfg(test)]
mod halves;
#[cfg(test)]
mod kept_rows;
#[cfg(test)]
mod limited;
#[cfg(test)]
mod loops;
#[cfg(test)]
mod opened;
#[cfg(test)]
mod pools;
#[cfg(test)]
mod refusing;
#[cfg(test)]
mod splits;
#[cfg(test)]
mod standing;
#[cfg(test)]
mod tasks;
