//! Tests of the pool's parts by their public calls: walks, rows, barriers, Worlds, event counts.
//! README.md says which table a new test is a row of.
#![tactic(auto)]

#[cfg(test)]
mod barriers;
#[cfg(test)]
mod faults;
#[cfg(test)]
mod one_count;
#[cfg(test)]
mod pairs;
#[cfg(test)]
mod rows;
#[cfg(test)]
mod sequences;
#[cfg(test)]
mod slot_rows;
#[cfg(test)]
mod steps;
#[cfg(test)]
mod threads;
#[cfg(test)]
mod told;
#[cfg(test)]
mod walks;
#[cfg(test)]
mod words;
#[cfg(test)]
mod worlds;
