//! Writes expressions as numbers. `tree.rt` and `arguments.rt` read them; `specs/Recorded` defines
//! them.

ghost use Rattle.std.specs.Prelude.{◌≡◌, ◌++◌, ◌∷◌, ◌≤◌, ℕ, List, length, IfOk, IfErr, OnOk};
ghost use Rattle.std.specs.List.{All};
ghost use Rattle.expr_reader.specs.Bindings.{terms_under};
ghost use Rattle.prepared_expressions.specs.Numbers.{headed, number_of};
ghost use Rattle.prepared_expressions.specs.Prepared.{IsWritable};
ghost use Rattle.prepared_expressions.specs.Recorded.{recorded, recorded_all, height_of};
ghost use Rattle.prepared_expressions.specs.Recorded.{HasRange, HasRanges};
ghost use Rattle.prepared_expressions.specs.Recorded.{unary_kind, unary_numbers, binary_kind};
ghost use Rattle.prepared_expressions.specs.Recorded.{binary_numbers, movement_kind};
ghost use Rattle.prepared_expressions.specs.Recorded.{movement_numbers, flag_number, pair_numbers};
ghost use Rattle.tensor_terms.specs.Tree.{term_of, unary_at, binary_at, movement_at};

use crate::kind::{BinaryKind, Kind, UnaryKind};
use crate::refusal::Refusal;
use crate::tree::MAX_HEIGHT;
use expr_reader::Binding;
use std::alloc::{AllocError, Global};
use tensor_terms::{Binary, Expr, Movement, Node, Ternary, Unary};

/// Appends the numbers of an expression. `TooLarge` if more than `height` of its nodes lie one
/// below the other.
pub(crate) fn write_tree(
    alloc: Global,
    numbers: &mut Vec<u64>,
    expr: &Expr,
    height: u32,
) -> Result<(), Refusal>
    ensures numbers { OnOk result ((rest : List ℕ) → numbers.new.items ++ rest
        ≡ numbers.old.items ++ recorded (term_of expr.now) rest) }
    ensures ranges { OnOk result (HasRanges (term_of expr.now)) }
    ensures height { OnOk result (height_of (term_of expr.now) ≤ height) }
    ensures refused { height_of (term_of expr.now) ≤ height
        → IfErr result (λ f. f ≡ Refusal.NoMemory) }
{
    if height == 0 {
        return Err(Refusal::TooLarge);
    }
    match expr.node() {
        Node::Input(number) => {
            write_head(numbers, Kind::Input, &[u64::from(number)])?;
        }
        Node::Unary(operation, operand) => {
            let arguments = numbers_of(alloc, operation)?;
            write_head(numbers, Kind::One(kind_of(operation)), arguments.as_slice())?;
            write_tree(alloc, numbers, operand, height - 1)?;
        }
        Node::Binary(operation, first, second) => {
            let arguments = binary_numbers_of(alloc, operation)?;
            write_head(
                numbers,
                Kind::Two(binary_kind_of(operation)),
                arguments.as_slice(),
            )?;
            write_tree(alloc, numbers, first, height - 1)?;
            write_tree(alloc, numbers, second, height - 1)?;
        }
        Node::Ternary(Ternary::Select, first, second, third) => {
            write_head(numbers, Kind::Select, &[])?;
            write_tree(alloc, numbers, first, height - 1)?;
            write_tree(alloc, numbers, second, height - 1)?;
            write_tree(alloc, numbers, third, height - 1)?;
        }
    }
    Ok(())
}

/// Appends the numbers of the expressions of bindings, one after the other.
pub(crate) fn write_bindings(
    alloc: Global,
    numbers: &mut Vec<u64>,
    bindings: &[Binding],
) -> Result<(), Refusal>
    ensures numbers { OnOk result ((rest : List ℕ) → numbers.new.items ++ rest
        ≡ numbers.old.items ++ recorded_all (terms_under bindings.now) rest) }
    ensures writable { OnOk result (All IsWritable (terms_under bindings.now)) }
    ensures refused { All IsWritable (terms_under bindings.now)
        → IfErr result (λ f. f ≡ Refusal.NoMemory) }
{
    for binding in bindings {
        write_tree(alloc, numbers, &binding.expr, MAX_HEIGHT)?;
    }
    Ok(())
}

/// Appends the head of a node: the number of its kind, the number of its arguments, and the
/// arguments.
fn write_head(numbers: &mut Vec<u64>, kind: Kind, arguments: &[u64]) -> Result<(), AllocError>
    ensures { OnOk result ((rest : List ℕ) → numbers.new.items ++ rest
        ≡ numbers.old.items ++ headed (number_of kind) arguments.now rest) }
{
    numbers.push(kind.number())?;
    write_list(numbers, arguments)
}

/// Appends the length of a list, and then the list.
pub(crate) fn write_list(numbers: &mut Vec<u64>, list: &[u64]) -> Result<(), AllocError>
    ensures { OnOk result ((rest : List ℕ) → numbers.new.items ++ rest
        ≡ numbers.old.items ++ length list.now ∷ list.now ++ rest) }
{
    numbers.push(list.len() as u64)?;
    numbers.extend_from_slice(list)?;
    Ok(())
}

/// Returns the kind of an operation on one operand.
fn kind_of(operation: Unary<'_>) -> UnaryKind
    ensures { result ≡ unary_kind (unary_at operation.entry) }
{
    match operation {
        Unary::Each(scalar) => UnaryKind::Each(scalar),
        Unary::Constant(_) => UnaryKind::Constant,
        Unary::Move(Movement::Broadcast(_)) => UnaryKind::Broadcast,
        Unary::Move(Movement::Slice(_, _)) => UnaryKind::Slice,
        Unary::Move(Movement::Shuffle(_)) => UnaryKind::Shuffle,
        Unary::Move(Movement::Reshape(_)) => UnaryKind::Reshape,
        Unary::Move(Movement::Chip(_, _)) => UnaryKind::Chip,
        Unary::Move(Movement::Reverse(_)) => UnaryKind::Reverse,
        Unary::Move(Movement::Stride(_)) => UnaryKind::Stride,
        Unary::Pad(_) => UnaryKind::Pad,
        Unary::Reduce(reducer, _) => UnaryKind::Reduce(reducer),
        Unary::Along(operation, _) => UnaryKind::Along(operation),
    }
}

/// Returns the kind of an operation on two operands.
fn binary_kind_of(operation: Binary<'_>) -> BinaryKind
    ensures { result ≡ binary_kind (binary_at operation.entry) }
{
    match operation {
        Binary::Pairwise(scalar) => BinaryKind::Pairwise(scalar),
        Binary::Concat(_) => BinaryKind::Concat,
        Binary::Contract(_) => BinaryKind::Contract,
        Binary::Convolve(_) => BinaryKind::Convolve,
        Binary::Take(_) => BinaryKind::Take,
    }
}

/// Returns the arguments of an operation on one operand, as numbers.
fn numbers_of(alloc: Global, operation: Unary<'_>) -> Result<Vec<u64>, AllocError>
    ensures numbers { IfOk result (λ v. v.items ≡ unary_numbers (unary_at operation.entry)) }
    ensures range { HasRange (unary_at operation.entry) }
{
    match operation {
        Unary::Each(_) => Ok(Vec::new(alloc)),
        Unary::Constant(value) => Vec::from_slice(alloc, &[value.cast_unsigned()]),
        Unary::Move(movement) => movement_numbers_of(alloc, movement),
        Unary::Pad(pairs) => pair_numbers_of(alloc, pairs),
        Unary::Reduce(_, axes) => Vec::from_slice(alloc, axes),
        Unary::Along(_, axis) => Vec::from_slice(alloc, &[axis]),
    }
}

/// Returns the arguments of a movement, as numbers. Of two lists, the first has its length before
/// it.
fn movement_numbers_of(alloc: Global, moving: Movement<'_>) -> Result<Vec<u64>, AllocError>
    ensures { IfOk result (λ v. v.items ≡ movement_numbers (movement_at moving.entry)) }
{
    match moving {
        Movement::Broadcast(list)
        | Movement::Shuffle(list)
        | Movement::Reshape(list)
        | Movement::Stride(list) => Vec::from_slice(alloc, list),
        Movement::Slice(offsets, extents) => {
            let mut numbers = Vec::new(alloc);
            numbers.push(offsets.len() as u64)?;
            numbers.extend_from_slice(offsets)?;
            numbers.extend_from_slice(extents)?;
            Ok(numbers)
        }
        Movement::Chip(offset, axis) => Vec::from_slice(alloc, &[offset, axis]),
        Movement::Reverse(flags) => flags.iter().map(|flag| flag_number(*flag)).collect(alloc),
    }
}

/// Returns 1 for true and 0 for false.
fn flag_number(flag: bool) -> u64
    ensures { result ≡ flag_number flag }
{
    if flag { 1 } else { 0 }
}

/// Returns the arguments of an operation on two operands, as numbers.
fn binary_numbers_of(alloc: Global, operation: Binary<'_>) -> Result<Vec<u64>, AllocError>
    ensures { IfOk result (λ v. v.items ≡ binary_numbers (binary_at operation.entry)) }
{
    match operation {
        Binary::Pairwise(_) => Ok(Vec::new(alloc)),
        Binary::Concat(axis) | Binary::Take(axis) => Vec::from_slice(alloc, &[axis]),
        Binary::Contract(pairs) => pair_numbers_of(alloc, pairs),
        Binary::Convolve(axes) => Vec::from_slice(alloc, axes),
    }
}

/// Returns the numbers of pairs, one pair after the other.
fn pair_numbers_of(alloc: Global, pairs: &[(u64, u64)]) -> Result<Vec<u64>, AllocError>
    ensures { IfOk result (λ v. v.items ≡ pair_numbers pairs.now) }
{
    let mut numbers = Vec::new(alloc);
    let mut left = pairs;
    while let [(first, second), behind @ ..] = left {
        numbers.push(*first)?;
        numbers.push(*second)?;
        left = behind;
    }
    Ok(numbers)
}
