//! Tests of the numbers and words of faults that no clause says. Programs and clients know them.

use crate::told::expect;
use std::test::Fail;
use tensor_ops::{ExprFault, ShapeFault};
use tensor_runner::{RunFault, StreamFault};

const NUMBERS: [u64; 6] = [
    ExprFault::ShapeMismatch as u64,
    ExprFault::OutOfRange as u64,
    ExprFault::TooLarge as u64,
    RunFault::NoMemory as u64,
    StreamFault::ReadFault as u64,
    StreamFault::WriteFault as u64,
];

#[test]
fn numbers_and_texts_of_faults(rt: HostRuntime) -> Result<(), Fail> {
    expect(&rt, "numbers", &NUMBERS, &[1, 2, 3, 15, 16, 17]);
    let (rank, elements) = (ShapeFault::RankTooHigh, ShapeFault::TooManyElements);
    let told = format!(in rt.alloc(); "{rank}, {elements}")?;
    let texts = "the rank is too high, there are too many elements";
    expect(&rt, "dims", &told.as_str(), &texts);
    let (shape, range) = (ExprFault::ShapeMismatch, ExprFault::OutOfRange);
    let large = ExprFault::TooLarge;
    let told = format!(in rt.alloc(); "{shape}, {range}, {large}")?;
    let texts = "the shapes do not match, an argument is out of range, the result is too large";
    expect(&rt, "an expression", &told.as_str(), &texts);
    let no_memory = RunFault::NoMemory;
    let (no_read, no_write) = (StreamFault::ReadFault, StreamFault::WriteFault);
    let told = format!(in rt.alloc(); "{no_memory}, {no_read}, {no_write}")?;
    let texts = "error 15 NoMemory, a read failed, a write failed";
    expect(&rt, "runs", &told.as_str(), &texts);
    Ok(())
}
