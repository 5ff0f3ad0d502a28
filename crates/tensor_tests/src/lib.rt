//! Tests of expressions and plans by single calls, and of the whole way from the bytes of a request
//! text to the line that answers it.
//!
//! A case that is only a text and its answer belongs in `request_cases`. Here are texts that no
//! file of cases can hold, and streams that give or take few bytes, or fail.
#![tactic(auto)]

#[cfg(test)]
mod bindings;
#[cfg(test)]
mod copies;
#[cfg(test)]
mod deadlines;
#[cfg(test)]
mod faults;
#[cfg(test)]
mod lines;
#[cfg(test)]
mod parts;
#[cfg(test)]
mod plans;
#[cfg(test)]
mod runs;
#[cfg(test)]
mod shards;
#[cfg(test)]
mod streams;
#[cfg(test)]
mod texts;
#[cfg(test)]
mod told;
