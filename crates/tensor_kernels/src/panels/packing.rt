//! Copies rows of an operand into panels. `Panels` and the quarters of `tiling::strassen` are made
//! by this; specs/Panels defines where each value lies.

ghost use Rattle.std.specs.Prelude.{◌≡◌, ℕ, ◌*◌, ◌+◌, ◌-◌, ◌<◌, ◌≤◌, ◌++◌};
ghost use Rattle.std.specs.Prelude.{length, map, min, slice_index, vec_len, vec_capacity};
ghost use Rattle.std.specs.Prelude.{IfOk, IsTrue, IsFalse};
ghost use Rattle.std.specs.Int.{div_ceil};
ghost use Rattle.tensor_kernels.specs.Panels.{AreCells};
ghost use Rattle.tensor_values.specs.Values.{value_in};

use std::alloc::{AllocError, Global};
use tensor_dots::{RowsPart, side_by_side};

/// Returns the rows of an operand in panels of `height` rows. The last panel is filled up with
/// copies of the last row.
pub(crate) fn packed(
    alloc: Global,
    part: &RowsPart<'_>,
    height: usize,
) -> Result<Vec<i64>, AllocError>
    requires some { 0 < height }
    requires low { height ≤ 16 }
    ensures len { IfOk result (λ v. vec_len v ≡ div_ceil (length part.now.starts.now) height
        * (length part.now.offsets.now * height)) }
    ensures cells { IfOk result (λ v. AreCells height v.items part.now.values.now
        part.now.starts.now part.now.offsets.now) }
{
    let panels = part.starts.len().div_ceil(height);
    let mut packed = Vec::with_capacity(alloc, panels * (part.offsets.len() * height))?;
    let starts = padded(alloc, part.starts, panels * height)?;
    for p in 0..panels {
        pack_panel(
            &mut packed,
            part,
            p,
            &starts[p * height..p * height + height],
        );
    }
    Ok(packed)
}

/// Returns the starts, extended to `count` of them by copies of the last one.
pub(crate) fn padded(
    alloc: Global,
    starts: &[usize],
    count: usize,
) -> Result<Vec<usize>, AllocError>
    requires some { 0 < count → 0 < length starts.now }
    ensures len { IfOk result (λ v. vec_len v ≡ count) }
    ensures each { IfOk result (λ v. (x : ℕ) → x < count
        → slice_index v.items x ≡ slice_index starts.now (min x (length starts.now - 1))) }
{
    let mut padded = Vec::with_capacity(alloc, count)?;
    for x in 0..count {
        padded.push_reserved(starts[x.min(starts.len() - 1)]);
    }
    Ok(padded)
}

/// Appends panel `p`, whose rows have the given starts. The arms are alike, so that the compiler
/// makes a copy of [`push_panel`] for each height and unrolls its loop over the starts.
fn pack_panel(packed: &mut Vec<i64>, part: &RowsPart<'_>, p: usize, starts: &[usize])
    requires some { 0 < length starts.now }
    requires low { length starts.now ≤ 16 }
    requires rows { p * length starts.now < length part.now.starts.now }
    requires starts { (j : ℕ) → j < length starts.now → slice_index starts.now j
        ≡ slice_index part.now.starts.now
        (min (p * length starts.now + j) (length part.now.starts.now - 1)) }
    requires start { vec_len packed.old
        ≡ p * (length part.now.offsets.now * length starts.now) }
    requires room { (p + 1) * (length part.now.offsets.now * length starts.now)
        ≤ vec_capacity packed.old }
    requires cells { AreCells (length starts.now) packed.old.items part.now.values.now
        part.now.starts.now part.now.offsets.now }
    ensures len { vec_len packed.new
        ≡ (p + 1) * (length part.now.offsets.now * length starts.now) }
    ensures capacity { vec_capacity packed.old ≤ vec_capacity packed.new }
    ensures cells { AreCells (length starts.now) packed.new.items part.now.values.now
        part.now.starts.now part.now.offsets.now }
{
    match starts.len() {
        1 => push_panel(packed, part, p, starts),
        16 => push_panel(packed, part, p, starts),
        _ => push_panel(packed, part, p, starts),
    }
}

/// Appends panel `p`, for any height.
#[inline(always)]
fn push_panel(packed: &mut Vec<i64>, part: &RowsPart<'_>, p: usize, starts: &[usize])
    requires some { 0 < length starts.now }
    requires low { length starts.now ≤ 16 }
    requires rows { p * length starts.now < length part.now.starts.now }
    requires starts { (j : ℕ) → j < length starts.now → slice_index starts.now j
        ≡ slice_index part.now.starts.now
        (min (p * length starts.now + j) (length part.now.starts.now - 1)) }
    requires start { vec_len packed.old
        ≡ p * (length part.now.offsets.now * length starts.now) }
    requires room { (p + 1) * (length part.now.offsets.now * length starts.now)
        ≤ vec_capacity packed.old }
    requires cells { AreCells (length starts.now) packed.old.items part.now.values.now
        part.now.starts.now part.now.offsets.now }
    ensures len { vec_len packed.new
        ≡ (p + 1) * (length part.now.offsets.now * length starts.now) }
    ensures capacity { vec_capacity packed.old ≤ vec_capacity packed.new }
    ensures cells { AreCells (length starts.now) packed.new.items part.now.values.now
        part.now.starts.now part.now.offsets.now }
{
    let run = are_together(starts);
    for offset in part.offsets {
        push_values(packed, part.values, starts, *offset, run);
    }
}

/// Returns whether there are several starts, and all follow one by one.
#[inline(always)]
fn are_together(starts: &[usize]) -> bool
    requires { length starts.now ≤ 16 }
    ensures run { IsTrue result → (j : ℕ) → j < length starts.now
        → slice_index starts.now j ≡ slice_index starts.now 0 + j }
    ensures apart { IsFalse result → 1 < length starts.now → ((j : ℕ) → j < length starts.now
        → slice_index starts.now j ≡ slice_index starts.now 0 + j) → ⊥ }
{
    starts.len() > 1 && side_by_side(starts, 0) == starts.len()
}

/// Appends the value at each start, moved by an offset. If `run` is true the starts follow one by
/// one, and the values are copied at once.
#[inline(always)]
fn push_values(packed: &mut Vec<i64>, values: &[i64], starts: &[usize], offset: usize, run: bool)
    requires run { IsTrue run → (j : ℕ) → j < length starts.now
        → slice_index starts.now j ≡ slice_index starts.now 0 + j }
    requires some { 0 < length starts.now }
    requires inside { (j : ℕ) → j < length starts.now
        → slice_index starts.now j + offset < length values.now }
    requires room { vec_len packed.old + length starts.now ≤ vec_capacity packed.old }
    ensures len { vec_len packed.new ≡ vec_len packed.old + length starts.now }
    ensures capacity { vec_capacity packed.old ≤ vec_capacity packed.new }
    ensures cells { packed.new.items ≡ packed.old.items
        ++ map (λ start. value_in values.now (start + offset)) starts.now }
{
    if run {
        push_run(packed, values, starts, offset);
    } else {
        push_at(packed, values, starts, offset);
    }
}

/// Appends the values of rows that begin side by side, moved by an offset.
#[inline(always)]
fn push_run(packed: &mut Vec<i64>, values: &[i64], starts: &[usize], offset: usize)
    requires run { (j : ℕ) → j < length starts.now
        → slice_index starts.now j ≡ slice_index starts.now 0 + j }
    requires some { 0 < length starts.now }
    requires inside { (j : ℕ) → j < length starts.now
        → slice_index starts.now j + offset < length values.now }
    requires room { vec_len packed.old + length starts.now ≤ vec_capacity packed.old }
    ensures len { vec_len packed.new ≡ vec_len packed.old + length starts.now }
    ensures capacity { vec_capacity packed.old ≤ vec_capacity packed.new }
    ensures cells { packed.new.items ≡ packed.old.items
        ++ map (λ start. value_in values.now (start + offset)) starts.now }
{
    let first = starts[0] + offset;
    let Ok(()) = packed.extend_from_slice(&values[first..first + starts.len()]) else {
        unreachable!()
    };
}

/// Appends the value at each start, moved by an offset.
#[inline(always)]
fn push_at(packed: &mut Vec<i64>, values: &[i64], starts: &[usize], offset: usize)
    requires inside { (j : ℕ) → j < length starts.now
        → slice_index starts.now j + offset < length values.now }
    requires room { vec_len packed.old + length starts.now ≤ vec_capacity packed.old }
    ensures len { vec_len packed.new ≡ vec_len packed.old + length starts.now }
    ensures capacity { vec_capacity packed.new ≡ vec_capacity packed.old }
    ensures cells { packed.new.items ≡ packed.old.items
        ++ map (λ start. value_in values.now (start + offset)) starts.now }
{
    for start in starts {
        packed.push_reserved(values[*start + offset]);
    }
}
