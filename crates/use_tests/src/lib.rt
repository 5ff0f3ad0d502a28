//! Tests of the callers in `uses`. A new caller gets a test in `callers.rt`.
#![tactic(auto)]

#[cfg(test)]
mod callers;
