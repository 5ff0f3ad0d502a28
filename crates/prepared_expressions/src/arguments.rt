//! Builds operations from their kinds and the numbers of their arguments. It is the inverse of
//! `written.rt`; `specs/private/Made` says which numbers make which operation.

ghost use Rattle.std.specs.Prelude.{◌≡◌, option_map, MatchResult};
ghost use Rattle.tensor_terms.specs.Term.{unary, binary, ternary, select};
ghost use Rattle.tensor_terms.specs.Tree.{term_of};
ghost use Rattle.prepared_expressions.specs.private.Made.{IsMadeOr, of_none, one_in, two_in, lists_in};
ghost use Rattle.prepared_expressions.specs.private.Made.{flag_in, flags_in, pairs_in, unary_from};
ghost use Rattle.prepared_expressions.specs.private.Made.{binary_from, input_from};

use crate::kind::{BinaryKind, UnaryKind};
use crate::refusal::Refusal;
use std::alloc::Global;
use tensor_terms::Expr;

/// Builds an operation of this kind with these arguments, on one operand. `NoRecord` if the numbers
/// are no arguments of this kind.
pub(crate) fn unary_over(
    alloc: Global,
    kind: UnaryKind,
    arguments: &[u64],
    operand: Expr,
) -> Result<Expr, Refusal>
    ensures { IsMadeOr term_of (option_map (λ o. unary o (term_of operand))
        (unary_from kind arguments.now)) result }
{
    let operand = boxed(alloc, operand)?;
    Ok(match kind {
        UnaryKind::Each(scalar) => {
            let scalar = alone(scalar, arguments)?;
            Expr::each(scalar, operand)
        }
        UnaryKind::Constant => Expr::Constant(operand, one_number(arguments)?.cast_signed()),
        UnaryKind::Broadcast => Expr::Broadcast(operand, arguments.to_vec(alloc)?),
        UnaryKind::Slice => {
            let (offsets, extents) = two_lists(arguments)?;
            Expr::Slice(operand, offsets.to_vec(alloc)?, extents.to_vec(alloc)?)
        }
        UnaryKind::Shuffle => Expr::Shuffle(operand, arguments.to_vec(alloc)?),
        UnaryKind::Reshape => Expr::Reshape(operand, arguments.to_vec(alloc)?),
        UnaryKind::Chip => {
            let (offset, axis) = two_numbers(arguments)?;
            Expr::Chip(operand, offset, axis)
        }
        UnaryKind::Reverse => Expr::Reverse(operand, read_flags(alloc, arguments)?),
        UnaryKind::Stride => Expr::Stride(operand, arguments.to_vec(alloc)?),
        UnaryKind::Pad => Expr::Pad(operand, read_pairs(alloc, arguments)?),
        UnaryKind::Reduce(reducer) => Expr::reduction(reducer, operand, arguments.to_vec(alloc)?),
        UnaryKind::Along(operation) => Expr::along(operation, operand, one_number(arguments)?),
    })
}

/// Builds an operation of this kind with these arguments, on two operands. `NoRecord` if the
/// numbers are no arguments of this kind.
pub(crate) fn binary_over(
    alloc: Global,
    kind: BinaryKind,
    arguments: &[u64],
    first: Expr,
    second: Expr,
) -> Result<Expr, Refusal>
    ensures { IsMadeOr term_of (option_map (λ o. binary o (term_of first) (term_of second))
        (binary_from kind arguments.now)) result }
{
    let first = boxed(alloc, first)?;
    let second = boxed(alloc, second)?;
    match kind {
        BinaryKind::Pairwise(scalar) => {
            let scalar = alone(scalar, arguments)?;
            Ok(Expr::pairwise(scalar, first, second))
        }
        BinaryKind::Concat => Ok(Expr::Concat(first, second, one_number(arguments)?)),
        BinaryKind::Contract => Ok(Expr::Contract(first, second, read_pairs(alloc, arguments)?)),
        BinaryKind::Convolve => Ok(Expr::Convolve(first, second, arguments.to_vec(alloc)?)),
        BinaryKind::Take => Ok(Expr::Take(first, second, one_number(arguments)?)),
    }
}

/// Builds the choice between `first` and `second` by `choice`. `NoRecord` if there is an argument.
pub(crate) fn select_over(
    alloc: Global,
    arguments: &[u64],
    choice: Expr,
    first: Expr,
    second: Expr,
) -> Result<Expr, Refusal>
    ensures { IsMadeOr term_of (of_none
        (ternary select (term_of choice) (term_of first) (term_of second)) arguments.now) result }
{
    let choice = boxed(alloc, choice)?;
    let first = boxed(alloc, first)?;
    let second = boxed(alloc, second)?;
    alone(Expr::Select(choice, first, second), arguments)
}

/// Builds the input whose number is the only argument. `NoRecord` if the number is not below
/// `inputs`.
pub(crate) fn input_of(arguments: &[u64], inputs: u32) -> Result<Expr, Refusal>
    ensures { IsMadeOr term_of (input_from inputs arguments.now) result }
{
    let number = one_number(arguments)?;
    if number >= u64::from(inputs) {
        return Err(Refusal::NoRecord);
    }
    Ok(Expr::Input(number as u32))
}

/// Allocates a box for an operand.
fn boxed(alloc: Global, expr: Expr) -> Result<Box<Expr>, Refusal>
    ensures { MatchResult result (λ b. b.value ≡ expr) (λ f. f ≡ Refusal.NoMemory) }
{
    match Box::new(alloc, expr) {
        Ok(boxed) => Ok(boxed),
        Err(_) => Err(Refusal::NoMemory),
    }
}

/// Returns `item`, or `NoRecord` if there is a number.
pub(crate) fn alone<T: Drop>(item: T, numbers: &[u64]) -> Result<T, Refusal>
    ensures { IsMadeOr (λ x. x) (of_none item numbers.now) result }
{
    match numbers {
        [] => Ok(item),
        _ => Err(Refusal::NoRecord),
    }
}

/// Returns the only number, or `NoRecord` if there is not exactly one.
fn one_number(numbers: &[u64]) -> Result<u64, Refusal>
    ensures { IsMadeOr (λ n. n) (one_in numbers.now) result }
{
    match numbers {
        [number] => Ok(*number),
        _ => Err(Refusal::NoRecord),
    }
}

/// Returns the two numbers, or `NoRecord` if there are not exactly two.
fn two_numbers(numbers: &[u64]) -> Result<(u64, u64), Refusal>
    ensures { IsMadeOr (λ p. p) (two_in numbers.now) result }
{
    match numbers {
        [first, second] => Ok((*first, *second)),
        _ => Err(Refusal::NoRecord),
    }
}

/// Returns two lists. The first number is the length of the first list; the second list is what is
/// left.
fn two_lists(numbers: &[u64]) -> Result<(&[u64], &[u64]), Refusal>
    ensures { IsMadeOr (λ p. (p.0.now, p.1.now)) (lists_in numbers.now) result }
{
    let [count, both @ ..] = numbers else {
        return Err(Refusal::NoRecord);
    };
    if (both.len() as u64) < *count {
        return Err(Refusal::NoRecord);
    }
    Ok(both.split_at(*count as usize))
}

/// Reads flags. Each number is 1 or 0.
fn read_flags(alloc: Global, numbers: &[u64]) -> Result<Vec<bool>, Refusal>
    ensures { IsMadeOr (λ flags. flags.items) (flags_in numbers.now) result }
{
    let mut flags = Vec::with_capacity(alloc, numbers.len())?;
    let mut left = numbers;
    while let [number, behind @ ..] = left {
        let flag = read_flag(*number)?;
        let Ok(()) = flags.push(flag) else {
            return Err(Refusal::NoMemory);
        };
        left = behind;
    }
    Ok(flags)
}

/// Reads a flag: 1 is true, 0 is false.
fn read_flag(number: u64) -> Result<bool, Refusal>
    ensures { IsMadeOr (λ flag. flag) (flag_in number) result }
{
    match number {
        0 => Ok(false),
        1 => Ok(true),
        _ => Err(Refusal::NoRecord),
    }
}

/// Reads pairs that follow one another. `NoRecord` if one number is left.
fn read_pairs(alloc: Global, numbers: &[u64]) -> Result<Vec<(u64, u64)>, Refusal>
    ensures { IsMadeOr (λ pairs. pairs.items) (pairs_in numbers.now) result }
{
    let mut pairs = Vec::with_capacity(alloc, numbers.len() / 2)?;
    let mut left = numbers;
    while let [first, second, behind @ ..] = left {
        let Ok(()) = pairs.push((*first, *second)) else {
            return Err(Refusal::NoMemory);
        };
        left = behind;
    }
    alone(pairs, left)
}
