//! Writes a prepared expression as a record, and reads a record over arrays. A record begins with
//! its form; another layout of records takes a new form, so that a record of an old build is
//! refused.

ghost use Rattle.std.specs.Prelude.{◌≡◌, ◌≢◌, ◌⊎◌, ◌<◌, ◌+◌, ◌^◌, ◌++◌, ◌∷◌, ℕ, List, length};
ghost use Rattle.std.specs.Prelude.{IsTrue, IfOk, IfErr, IsErrOf, OnOk, IfSome, IfNone};
ghost use Rattle.expr_reader.specs.Arrays.{arrays_under};
ghost use Rattle.tensor_shape.specs.Legal.{text_elements, most_elements, IsPossible};
ghost use Rattle.prepared_expressions.specs.Prepared.{prepared_outline, record_of, recorded_dims};
ghost use Rattle.prepared_expressions.specs.Prepared.{dims_of_all, all_legal, form_of};
ghost use Rattle.prepared_expressions.specs.Prepared.{Begins, IsPrepared, IsRecordable};
ghost use Rattle.prepared_expressions.specs.Ready.{IsFound, IsRefusalOf};
ghost use Rattle.prepared_expressions.specs.private.ToldAll.{IsRecordedOver, IsRefusalFor};

use crate::arguments::alone;
use crate::inputs::read_tensors;
use crate::ready::Ready;
use crate::refusal::Refusal;
use crate::tree::{MAX_HEIGHT, read_tree};
use crate::written::{write_bindings, write_list, write_tree};
use expr_reader::{Array, KnownInputs, Outline};
use std::alloc::Global;
use tensor_ops::eval_plain;
use tensor_shape::{Bounds, Dims, MAX_ELEMENTS, TEXT_ELEMENTS};
use tensor_terms::Inputs;

/// The form of a record whose tensors have at most [`TEXT_ELEMENTS`] elements. A record begins with
/// its form.
const TEXT_FORM: u64 = 3;

/// The form of a record whose tensors have at most [`MAX_ELEMENTS`] elements.
const WIDE_FORM: u64 = 4;

/// Writes the record of an outline: of its expression over inputs and bindings.
///
/// # Errors
///
/// [`Refusal::TooLarge`] only if the expression does not fit in a record, or [`Refusal::NoMemory`].
pub fn prepare(alloc: Global, outline: &Outline<'_>) -> Result<Vec<u64>, Refusal>
    ensures numbers { IfOk result (λ numbers.
        numbers.items ≡ record_of (prepared_outline outline.now)) }
    ensures prepared { IfOk result (λ numbers. IsPrepared (prepared_outline outline.now)) }
    ensures refused { IsPrepared (prepared_outline outline.now)
        → IfErr result (λ f. f ≡ Refusal.NoMemory) }
{
    let bounds = outline.inputs.bounds();
    let Some(form) = form_of(bounds) else {
        return Err(Refusal::TooLarge);
    };
    let inputs = u64::from(outline.inputs.len());
    let bindings = outline.bindings.len() as u64;
    let mut numbers = Vec::from_slice(alloc, &[form, bounds.rank as u64, inputs, bindings])?;
    write_dims(&mut numbers, &outline.inputs, bounds)?;
    write_bindings(alloc, &mut numbers, &outline.bindings)?;
    write_tree(alloc, &mut numbers, &outline.expr, MAX_HEIGHT)?;
    Ok(numbers)
}

/// Appends the rank and the dims of each input.
fn write_dims(
    numbers: &mut Vec<u64>,
    inputs: &KnownInputs<'_>,
    bounds: Bounds,
) -> Result<(), Refusal>
    requires { IsPossible bounds }
    ensures numbers { OnOk result ((rest : List ℕ) → numbers.new.items ++ rest
        ≡ numbers.old.items ++ recorded_dims (dims_of_all inputs.now.tensors) rest) }
    ensures legal { OnOk result (IsTrue (all_legal bounds (dims_of_all inputs.now.tensors))) }
    ensures refused { IsTrue (all_legal bounds (dims_of_all inputs.now.tensors))
        → IfErr result (λ f. f ≡ Refusal.NoMemory) }
{
    for number in 0..inputs.len() {
        let sizes = inputs.dims(number).as_slice();
        let Ok(_) = Dims::within(bounds, sizes) else {
            return Err(Refusal::TooLarge);
        };
        write_list(numbers, sizes)?;
    }
    Ok(())
}

/// Reads a record over arrays, one for each input, with as many values as the input's dims have
/// places. Evaluates each binding once, over the inputs and the bindings before it.
///
/// # Errors
///
/// [`Refusal::NoRecord`], [`Refusal::OtherArrays`], [`Refusal::NoDims`] or [`Refusal::NoMemory`].
pub fn read_over<'a>(
    alloc: Global,
    numbers: &[u64],
    arrays: &[Array<'a>],
) -> Result<Ready<'a>, Refusal>
    ensures found { IfOk result (IsFound numbers.now (arrays_under arrays.now)) }
    ensures refused { IfErr result (IsRefusalOf numbers.now (arrays_under arrays.now)) }
    ensures no_start { (Begins numbers.now → ⊥) → IsErrOf result Refusal.NoRecord }
{
    let Some(start) = read_start(numbers) else {
        return Err(Refusal::NoRecord);
    };
    let count = start.inputs as usize;
    if count != arrays.len() {
        return Err(Refusal::OtherArrays);
    }
    let dealt = read_tensors(alloc, start.bounds, start.rest, arrays)?;
    let inputs = Inputs::with_bounds(dealt.tensors, start.bounds);
    let ready = read_bound(alloc, dealt.rest, inputs, start.bindings)?;
    Ok(ready)
}

/// Reads bindings, as many as `count`, and the expression after them. Evaluates each binding over
/// the tensors before it. `NoRecord` if numbers are left.
fn read_bound<'a>(
    alloc: Global,
    numbers: &[u64],
    inputs: Inputs<'a>,
    count: u32,
) -> Result<Ready<'a>, Refusal>
    requires { length inputs.tensors + count < 2 ^ 32 }
    ensures found { IfOk result (IsRecordedOver numbers.now count inputs.entry.tensors) }
    ensures refused { IfErr result (IsRefusalFor numbers.now count inputs.entry) }
{
    // Called for its clause: dims can go as far as the inputs' bounds.
    let _limit = inputs.bounds();
    let mut tensors = inputs.widened();
    let mut rest = numbers;
    for _before in 0..count {
        let read = read_tree(alloc, rest, tensors.len(), MAX_HEIGHT)?;
        let Ok(_) = read.expr.dims(&tensors) else {
            return Err(Refusal::NoDims);
        };
        let tensor = eval_plain(alloc, &read.expr, &tensors)?;
        tensors.push(tensor)?;
        rest = read.rest;
    }
    let last = read_tree(alloc, rest, tensors.len(), MAX_HEIGHT)?;
    let expr = alone(last.expr, last.rest)?;
    let Ok(dims) = expr.dims(&tensors) else {
        return Err(Refusal::NoDims);
    };
    Ok(Ready {
        tensors,
        expr,
        dims,
    })
}

/// The first numbers of a record: the bounds of results, and how many inputs and bindings there
/// are; and the numbers after them.
#[derive(Clone, Copy)]
struct Start<'n> {
    bounds: Bounds,
    inputs: u32,
    bindings: u32,
    rest: &'n [u64],
}

/// Reads the first numbers of a record.
fn read_start(numbers: &[u64]) -> Option<Start<'_>>
    ensures found { IfSome result (λ s. numbers.now
        ≡ form_of s.bounds.elements ∷ s.bounds.rank ∷ s.inputs ∷ s.bindings ∷ s.rest.now) }
    ensures bounds { IfSome result (λ s. IsRecordable s.bounds) }
    ensures few { IfSome result (λ s. s.inputs + s.bindings < 2 ^ 32) }
    ensures none { IfNone result (Begins numbers.now → ⊥) }
{
    let [form, rank, inputs, bindings, rest @ ..] = numbers else {
        return None;
    };
    let elements = elements_of(*form)?;
    if *rank != 6 && *rank != 8 {
        return None;
    }
    let most = u64::from(u32::MAX);
    if *inputs > most || *bindings > most - *inputs {
        return None;
    }
    let rank = *rank as usize;
    Some(Start {
        bounds: Bounds { rank, elements },
        inputs: *inputs as u32,
        bindings: *bindings as u32,
        rest,
    })
}

/// Returns the form of a record with these bounds. `None` if no record has such bounds.
fn form_of(bounds: Bounds) -> Option<u64>
    ensures form { IfSome result (λ form. form ≡ form_of bounds.elements) }
    ensures bounds { IfSome result (λ form. IsRecordable bounds) }
    ensures none { IfNone result (IsRecordable bounds → ⊥) }
{
    if bounds.rank != 6 && bounds.rank != 8 {
        return None;
    }
    match bounds.elements {
        TEXT_ELEMENTS => Some(TEXT_FORM),
        MAX_ELEMENTS => Some(WIDE_FORM),
        _ => None,
    }
}

/// Returns how many elements a tensor may have in a record of this form.
fn elements_of(form: u64) -> Option<u64>
    ensures form { IfSome result (λ elements. form_of elements ≡ form) }
    ensures elements { IfSome result (λ elements.
        (elements ≡ text_elements) ⊎ (elements ≡ most_elements)) }
    ensures none { IfNone result ((elements : ℕ) → form_of elements ≢ form) }
{
    match form {
        TEXT_FORM => Some(TEXT_ELEMENTS),
        WIDE_FORM => Some(MAX_ELEMENTS),
        _ => None,
    }
}
