//! Tests of `parallel_for`: of ranges that are cut into blocks, and of their evaluation on workers.
#![tactic(auto)]

#[cfg(test)]
mod cuts;
#[cfg(test)]
mod kernels;
#[cfg(test)]
mod ranges;
