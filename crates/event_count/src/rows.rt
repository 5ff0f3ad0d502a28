//! The calls that only a count with rows has: they publish and take jobs, look at rows and at the
//! stop word, and move credits through the bank. waking_rows calls them.

mod banking;
mod passing;
mod plays;
mod publishing;
