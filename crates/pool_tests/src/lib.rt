//! Tests of pools that are opened, worked in and closed, also over a caller's own rows and wait
//! points. README.md says which table a new test is a row of.
#![tactic(auto)]

#[cfg(test)]
mod bodies;
#[cfg(test)]
mod own_rows;
#[cfg(test)]
mod runs;
#[cfg(test)]
mod settings;
#[cfg(test)]
mod setups;
#[cfg(test)]
mod standing;
#[cfg(test)]
mod tasks;
#[cfg(test)]
mod trees;
#[cfg(test)]
mod watch;
#[cfg(test)]
mod worn;
