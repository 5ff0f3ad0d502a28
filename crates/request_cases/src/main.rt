//! Answers the request texts of files of cases, and prints the answers that differ from the files.
//! README.md says what a file has. The gate compares the output with `stdout`, which has the number
//! of cases of each file.
#![tactic(auto)]

mod answers;
mod case_line;
mod cases;

use crate::cases::Cases;
use std::{fs, io};

/// The files of cases, in `data/`. A new file is added here and in `stdout`.
const FILES: &[&str] = &[
    "arguments.cases",
    "chains.cases",
    "check_order.cases",
    "chunks.cases",
    "contractions.cases",
    "fault_order.cases",
    "faults.cases",
    "moved_operands.cases",
    "movements.cases",
    "nested.cases",
    "pieces.cases",
    "ranges.cases",
    "ranks.cases",
    "reduced_operands.cases",
    "reductions.cases",
    "shards.cases",
    "tensors.cases",
    "tiles.cases",
    "trees.cases",
    "values.cases",
    "version_2.cases",
];

fn main(rt: HostRuntime) -> io::Result<()> {
    for &name in FILES {
        let file = fs::read_to_string(&rt, name)?;
        let mut cases = Cases::new(rt.alloc());
        cases.take_all(&rt, file.as_str())?;
        println!(rt; "{name}: {} cases{}", cases.count, cases.report)?;
    }
    Ok(())
}
