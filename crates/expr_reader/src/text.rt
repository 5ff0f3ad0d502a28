//! The entry points of the crate: from the bytes of a text, or of a header and the values after
//! it, to the request or its first fault. The order of the checks is the order of `specs/Request`.

ghost use Rattle.std.specs.Prelude.{◌≡◌, ◌+◌, ◌<◌, ◌≤◌, ◌⊎◌, [], Ok, Err, IsOk, MatchResult};
ghost use Rattle.std.specs.Prelude.{MatchOption, length, IsErrOf, IfOk, option_map, codes, min, pos, replicate};
ghost use Rattle.std.specs.Prelude.{option_and_then};
ghost use Rattle.std.specs.Option.{option_map_or};
ghost use Rattle.serde_json.specs.View.{view};
ghost use Rattle.expr_reader.specs.Arrays.{arrays_under, joined, request_of_arrays};
ghost use Rattle.expr_reader.specs.Asked.{asked_under, IsUnbound};
ghost use Rattle.expr_reader.specs.private.Behind.{in_text, source_of, naming_by, versions_by, asked_by};
ghost use Rattle.expr_reader.specs.private.Counted.{member_count};
ghost use Rattle.expr_reader.specs.Frame.{request_of_frame, values_limit, IsRefused};
ghost use Rattle.expr_reader.specs.Limits.{most_bytes, most_values, widest_values};
ghost use Rattle.expr_reader.specs.Located.{steps_under, located_under};
ghost use Rattle.expr_reader.specs.Expression.{expression_at};
ghost use Rattle.expr_reader.specs.Outline.{outlined};
ghost use Rattle.expr_reader.specs.private.Outcome.{IsToldAt};
ghost use Rattle.expr_reader.specs.Place.{field, here, below, unlocated};
ghost use Rattle.expr_reader.specs.Profile.{frame_profile_of};
ghost use Rattle.expr_reader.specs.Request.{profile_in, fields_asked};
ghost use Rattle.expr_reader.specs.Request.{data_of, request_of, version_in};
ghost use Rattle.expr_reader.specs.private.Shown.{fields_under, IsNamed};
ghost use Rattle.expr_reader.specs.Tensors.{Named};
ghost use Rattle.expr_reader.specs.Valued.{asked_from, part_from};
ghost use Rattle.expr_reader.specs.private.Version.{profile_under, versions_under};
ghost use Rattle.expr_reader.specs.private.Walked.{IsBehind};

use crate::array::Array;
use crate::expression::read_expression;
use crate::fault::Fault;
use crate::fields::{Fields, parse, within};
use crate::named::NamedInputs;
use crate::node::Subtree;
use crate::outline::Outline;
use crate::place::{Indices, Located, Place};
use crate::request::{Parsed, Request};
use crate::values::Values;
use crate::version::{Version, Versions};
use crate::{MAX_TEXT, MAX_VALUES, WIDEST_VALUES};
use serde_json::Value;
use std::alloc::Global;

/// Reads a request text, in one pass over its JSON value (RFC 8259). A failed allocation ends the
/// reading at once; no later fault is looked for. A text that is too long allocates nothing.
///
/// # Errors
///
/// The first fault of the text, by number up to [`Fault::BadTensor`] and then on the walk over the
/// tree, or [`Fault::NoMemory`].
pub fn read_request(alloc: Global, text: &[u8]) -> Result<Request<'static>, Fault>
    ensures request { MatchResult result
        (λ request. request_of text.now ≡ Ok (asked_under request))
        (λ fault. (fault ≡ Fault.NoMemory) ⊎ (request_of text.now ≡ Err fault)) }
    ensures unbound { IfOk result IsUnbound }
    ensures too_long { most_bytes < length text.now → IsErrOf result Fault.TooLong }
{
    let parsed = parse_request(alloc, text)?;
    let mut place = Place::Whole;
    let outline = read_value(alloc, &parsed.value, Values::InText, &mut place)?;
    outline.into_request(alloc)
}

/// Reads a frame: a header and the values after it. The header is a request text in which each
/// tensor is an object of `dims` alone. The values of the tensors follow one another in the order
/// of the tensors' names. The frame asks for the same as the text that has these values in the
/// `data` of its tensors.
///
/// # Errors
///
/// The faults of a text. [`Fault::TooLong`] is also returned if there are more values than
/// [`values_limit`], and [`Fault::BadTensor`] if there are more or fewer than the tensors have
/// places.
pub fn read_frame<'a>(alloc: Global, header: &[u8], values: &'a [i64]) -> Result<Request<'a>, Fault>
    ensures request { MatchResult result
        (λ request. request_of_frame header.now values.now ≡ Ok (asked_under request))
        (λ fault. (fault ≡ Fault.NoMemory) ⊎ (request_of_frame header.now values.now ≡ Err fault)) }
    ensures long_header { most_bytes < length header.now → IsErrOf result Fault.TooLong }
    ensures many_values { widest_values < length values.now → IsErrOf result Fault.TooLong }
{
    let parsed = parse_header(alloc, header, values.len())?;
    let mut place = Place::Whole;
    let outline = read_value(alloc, &parsed.value, Values::Behind(values), &mut place)?;
    outline.into_request(alloc)
}

/// Reads a header with `count` values after it, of which only the number is known. No value is
/// read, and no allocation grows with their number. The result holds for any values, since a
/// request does not depend on them: see [`frames_ask_alike`](crate::frames_ask_alike).
///
/// # Errors
///
/// The faults of [`read_frame`].
pub fn read_outline(alloc: Global, header: &[u8], count: u64) -> Result<Outline<'static>, Fault>
    ensures outline { MatchResult result
        (λ outline. request_of_frame header.now (replicate count (pos 0)) ≡ Ok (outlined outline))
        (λ fault. (fault ≡ Fault.NoMemory)
        ⊎ (request_of_frame header.now (replicate count (pos 0)) ≡ Err fault)) }
    ensures long_header { most_bytes < length header.now → IsErrOf result Fault.TooLong }
    ensures many_values { widest_values < count → IsErrOf result Fault.TooLong }
{
    let parsed = parse_header(alloc, header, count as usize)?;
    let mut place = Place::Whole;
    read_value(
        alloc,
        &parsed.value,
        Values::Unread(count as usize),
        &mut place,
    )
}

/// Reads a header with an array of values for each tensor, in the order of the tensors' names. If
/// each array has as many values as its tensor has places, the result is what [`read_frame`]
/// returns for this header and all arrays joined.
///
/// # Errors
///
/// The faults of that frame. [`Fault::BadTensor`] is also returned if an array has more or fewer
/// values than its tensor has places, or if there are more or fewer arrays than tensors.
pub fn read_arrays<'a>(
    alloc: Global,
    header: &[u8],
    arrays: &'a [Array<'a>],
) -> Result<Request<'a>, Fault>
    ensures request { MatchResult result
        (λ request. request_of_arrays header.now (arrays_under arrays.now)
        ≡ Ok (asked_under request))
        (λ fault. (fault ≡ Fault.NoMemory)
        ⊎ (request_of_arrays header.now (arrays_under arrays.now) ≡ Err fault)) }
    ensures long_header { most_bytes < length header.now → IsErrOf result Fault.TooLong }
    ensures many_values { widest_values < length (joined (arrays_under arrays.now))
        → IsErrOf result Fault.TooLong }
{
    let count = count_of(arrays);
    let parsed = parse_header(alloc, header, count)?;
    let mut place = Place::Whole;
    let outline = read_value(alloc, &parsed.value, Values::Apart(arrays), &mut place)?;
    outline.into_request(alloc)
}

/// Returns how many values arrays have together, or [`WIDEST_VALUES`] + 1 if there are more than
/// [`WIDEST_VALUES`].
fn count_of(arrays: &[Array<'_>]) -> usize
    ensures { result ≡ min (length (joined (arrays_under arrays.now))) (widest_values + 1) }
{
    let mut count = 0;
    for array in arrays {
        if array.values.len() > WIDEST_VALUES - count {
            return WIDEST_VALUES + 1;
        }
        count += array.values.len();
    }
    count
}

/// Returns how many values may follow a header: the limit of its version, or of version 1 if it has
/// no known version. A reader of a stream uses it to decide whether to keep the values.
///
/// # Errors
///
/// [`Fault::NoMemory`].
pub fn values_limit(alloc: Global, header: &[u8]) -> Result<u64, Fault>
    ensures { MatchResult result (λ most. most ≡ values_limit header.now)
        (λ fault. fault ≡ Fault.NoMemory) }
{
    match parse(alloc, header) {
        Ok(value) => Ok(values_of(&value) as u64),
        Err(Fault::NoMemory) => Err(Fault::NoMemory),
        Err(_) => Ok(MAX_VALUES as u64),
    }
}

/// Returns how many values may follow a header with this JSON value.
fn values_of(header: &Value) -> usize
    ensures value { result ≡ option_map_or (λ p. p.values)
        (option_and_then frame_profile_of (version_in (view header.now))) most_values }
    ensures limit { result ≤ widest_values }
{
    let Some(fields) = Fields::of(header) else {
        return MAX_VALUES;
    };
    match version_of(&fields, Versions::OfFrames) {
        Some(version) => version.values(),
        None => MAX_VALUES,
    }
}

/// Parses a header that has `count` values after it. A fault found here is a fault of the whole
/// frame. A header that is too long, or has more values than any version allows, allocates nothing.
///
/// # Errors
///
/// [`Fault::TooLong`], [`Fault::NotJson`] or [`Fault::NoMemory`].
pub fn parse_header(alloc: Global, header: &[u8], count: usize) -> Result<Parsed, Fault>
    ensures value { MatchResult result
        (λ parsed. (data_of header.now ≡ Ok (view parsed.value)) × (count ≤ values_limit header.now))
        (λ fault. IsRefused fault (values_limit header.now) count (data_of header.now)) }
    ensures long_header { most_bytes < length header.now → IsErrOf result Fault.TooLong }
    ensures many_values { widest_values < count → IsErrOf result Fault.TooLong }
{
    if count > WIDEST_VALUES || header.len() > MAX_TEXT {
        return Err(Fault::TooLong);
    }
    match parse(alloc, header) {
        Ok(value) if count > values_of(&value) => Err(Fault::TooLong),
        Ok(value) => Ok(Parsed { value }),
        Err(Fault::NoMemory) => Err(Fault::NoMemory),
        Err(fault) if count > MAX_VALUES => Err(Fault::TooLong),
        Err(fault) => Err(fault),
    }
}

/// Parses the JSON value of a text. A fault found here is a fault of the whole text.
///
/// # Errors
///
/// [`Fault::TooLong`], [`Fault::NotJson`] or [`Fault::NoMemory`].
pub fn parse_request(alloc: Global, text: &[u8]) -> Result<Parsed, Fault>
    ensures value { MatchResult result
        (λ parsed. data_of text.now ≡ Ok (view parsed.value))
        (λ fault. (fault ≡ Fault.NoMemory) ⊎ (data_of text.now ≡ Err (here fault))) }
    ensures too_long { most_bytes < length text.now → IsErrOf result Fault.TooLong }
{
    if text.len() > MAX_TEXT {
        return Err(Fault::TooLong);
    }
    let value = parse(alloc, text)?;
    Ok(Parsed { value })
}

/// Returns the first fault of a request with these values and its place, or `None` if it has none.
/// It reads the value as [`read_request`], [`read_frame`] and [`read_arrays`] do, so the fault is
/// the one that they return.
#[tactic(auto, using(crate::proofs::Valued::asked_as_by))]
pub fn locate<'v>(alloc: Global, parsed: &'v Parsed, values: Values<'_>) -> Option<Located<'v>>
    ensures { MatchOption result (IsOk (asked_from values.entry (view parsed.now.value)))
        (λ found. (found.fault ≡ Fault.NoMemory)
        ⊎ (asked_from values.entry (view parsed.now.value) ≡ Err (located_under found))) }
{
    let mut place = Place::Whole;
    match read_value(alloc, &parsed.value, values, &mut place) {
        Ok(_) => None,
        Err(fault) => Some(Located { fault, place }),
    }
}

/// Reads the outline of a parsed text or header with these values, with `expr` in place of its own
/// expression. `fault_reasons` uses it to find the dims of an operand.
///
/// # Errors
///
/// The first fault of that outline, or [`Fault::NoMemory`].
#[tactic(auto, using(crate::proofs::Valued::fields_as_by))]
pub fn read_part<'a>(
    alloc: Global,
    parsed: &Parsed,
    values: Values<'a>,
    expr: &Value,
) -> Result<Outline<'a>, Fault>
    ensures outline { MatchResult result
        (λ outline. part_from values.entry (view parsed.now.value) (view expr.now) ≡ Ok (outlined outline))
        (λ fault. (fault ≡ Fault.NoMemory)
        ⊎ (unlocated (part_from values.entry (view parsed.now.value) (view expr.now)) ≡ Err fault)) }
    ensures unbound { values.entry ≡ Values.InText
        → IfOk result (λ outline. outline.bindings.items ≡ []) }
{
    let Some(fields) = Fields::of(&parsed.value) else {
        return Err(Fault::BadField);
    };
    let fields = Fields { expr, ..fields };
    let mut place = Place::Whole;
    read_fields(alloc, &fields, values, &mut place)
}

/// Reads the outline of a JSON value. `place` is the whole value before the call; on a fault, it is
/// the fault's place.
fn read_value<'v, 'a>(
    alloc: Global,
    value: &'v Value,
    values: Values<'a>,
    place: &mut Place<'v>,
) -> Result<Outline<'a>, Fault>
    requires few { member_count (view value.now) ≤ most_bytes + 1 }
    requires start { steps_under place.old ≡ [] }
    ensures outline { IsToldAt outlined
        (asked_by (source_of values.entry) (view value.now))
        (steps_under place.new) result }
    ensures unbound { source_of values.entry ≡ in_text
        → IfOk result (λ outline. outline.bindings.items ≡ []) }
{
    let Some(fields) = Fields::of(value) else {
        return Err(Fault::BadField);
    };
    read_fields(alloc, &fields, values, place)
}

/// Reads the outline of the five fields, in the order of the faults. On a fault, `place` is set to
/// the fault's place.
fn read_fields<'v, 'a>(
    alloc: Global,
    fields: &Fields<'v>,
    values: Values<'a>,
    place: &mut Place<'v>,
) -> Result<Outline<'a>, Fault>
    requires { member_count (view fields.now.inputs.now) ≤ most_bytes + 1 }
    ensures outline { IsToldAt outlined
        (fields_asked (versions_by (source_of values.entry)) (naming_by (source_of values.entry))
        (fields_under fields.now))
        (steps_under place.new) result }
    ensures unbound { source_of values.entry ≡ in_text
        → IfOk result (λ outline. outline.bindings.items ≡ []) }
{
    let Some(version) = version_of(fields, values.versions()) else {
        *place = Place::Field("version");
        return Err(Fault::BadVersion);
    };
    let Some(workers) = within(fields.workers, 1, version.workers()) else {
        *place = Place::Field("workers");
        return Err(Fault::BadWorkers);
    };
    let Some(block) = within(fields.block, 1, version.block()) else {
        *place = Place::Field("block");
        return Err(Fault::BadBlock);
    };
    // Called for its clause: no version allows more than `widest_nodes` nodes.
    let _nodes = version.nodes();
    let mut named = NamedInputs::read(alloc, fields.inputs, version.bounds(), values, place)?;
    let tree = read_tree(version, &mut named, fields.expr, place)?;
    Ok(Outline {
        workers: workers as u32,
        block,
        inputs: named.inputs,
        bindings: named.bindings,
        expr: tree.expr,
        dims: tree.dims,
    })
}

/// Reads the field `expr`. On a fault, `place` is set to the node that has it.
fn read_tree<'v>(
    version: Version,
    named: &mut NamedInputs<'v, '_>,
    expr: &'v Value,
    place: &mut Place<'_>,
) -> Result<Subtree, Fault>
    requires named { (n : Named) × IsNamed named.old (profile_under version).bounds n }
    requires few { length named.old.inputs.tensors + length named.old.bindings.items
        ≤ most_bytes + 1 }
    ensures { (n : Named) → IsNamed named.old (profile_under version).bounds n
        → MatchResult result (IsBehind (profile_under version) n
        (expression_at (profile_under version) n 0 (view expr.now)) named.old named.new)
        (λ fault. (fault ≡ Fault.NoMemory)
        ⊎ (below (field (codes "expr"))
        (expression_at (profile_under version) n 0 (view expr.now))
        ≡ Err (record { fault = fault; place = steps_under place.new }))) }
{
    let mut way = Indices::new();
    let alloc = named.alloc;
    match read_expression(alloc, version, named, expr, 0, &mut way) {
        Ok(tree) => Ok(tree),
        Err(fault) => {
            *place = Place::Node(way);
            Err(fault)
        }
    }
}

/// Returns the version that the field `version` names, if it is one of `versions`.
fn version_of(fields: &Fields<'_>, versions: Versions) -> Option<Version>
    ensures { option_map profile_under result
        ≡ profile_in (versions_under versions) (fields_under fields.now) }
{
    Version::of(fields.version.as_u64()?, versions)
}
