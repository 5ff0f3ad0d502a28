//! Lowered expressions as operands of contractions: `Operand` says whether values are in order or
//! read along a view. The contracts meet `operands` in specs/private/Operand.

ghost use Rattle.std.specs.Prelude.{◌≡◌, ◌<◌, ◌≤◌, ℕ, length, IfOk};
ghost use Rattle.std.specs.Cow.{cow_slice_items};
ghost use Rattle.tensor_shape.specs.Index.{size_of, place};
ghost use Rattle.tensor_shape.specs.Legal.{most_elements};
ghost use Rattle.tensor_ops.specs.private.Meaning.{count_of, IsSound};
ghost use Rattle.tensor_ops.specs.private.Operand.{operand_at, operand_count};
ghost use Rattle.tensor_values.specs.Values.{value_in};
ghost use Rattle.tensor_ops.specs.private.Lowering.{HasValues, meaning_at};
ghost use Rattle.tensor_ops.specs.private.Sinking.{meaning_along};
ghost use Rattle.tensor_views.specs.View.{view_size, reached};

use crate::lowered::Lowered;
use crate::lowered::sinking::{sunk_over, view_over};
use crate::operands::operand::{Operand, Viewed};
use std::alloc::{AllocError, Global};
use std::borrow::CowSlice;
use tensor_shape::Dims;
use tensor_views::View;

/// The most values of a list for each place of a view along which a contraction reads it. All
/// values of the list are read, to find out whether they fit 32 bits. So of a longer list the
/// values along the view are stored.
const MOST_FOR_A_PLACE: usize = 8;

impl<'a> Lowered<'a> {
    /// Returns all values, if this has the given dims: a list and a view if this is a movement of a
    /// list, or else the values in order.
    pub(crate) fn into_operand(self, alloc: Global, dims: &Dims) -> Result<Operand<'a>, AllocError>
        requires sound { IsSound self }
        requires count { count_of self ≡ size_of dims.now }
        ensures { IfOk result (λ o. HasValues (operand_count o) (operand_at o) dims.now
            (meaning_at self.entry dims.now)) }
    {
        let sunk = sunk_over(alloc, self, dims)?;
        sunk.operand(alloc, dims)
    }

    /// Returns all values of a sunk expression: a list and a view, or the values in order.
    fn operand(self, alloc: Global, dims: &Dims) -> Result<Operand<'a>, AllocError>
        requires sound { IsSound self }
        requires count { count_of self ≡ size_of dims.now }
        ensures { IfOk result (λ o. HasValues (operand_count o) (operand_at o) dims.now
            (meaning_at self.entry dims.now)) }
    {
        if self.is_sparse(dims.size() as usize) {
            return Ok(Operand::InOrder(self.worked_out(alloc, dims)?));
        }
        match self {
            Lowered::View(view, operand) => Box::into_inner(operand).along(alloc, view, dims),
            sunk => Ok(Operand::InOrder(sunk.worked_out(alloc, dims)?)),
        }
    }

    /// Returns whether this reads a list along a view with far fewer places, `count`, than the list
    /// has.
    fn is_sparse(&self, count: usize) -> bool
        requires { IsSound self.now }
    {
        match self.reading() {
            Some(reading) => reading.list.len() / MOST_FOR_A_PLACE > count,
            None => false,
        }
    }

    /// Returns the values at the places of a view, which has the given dims: this list and the
    /// view, or the values in order if this isn't a list.
    fn along(self, alloc: Global, view: View, dims: &Dims) -> Result<Operand<'a>, AllocError>
        requires sound { IsSound self }
        requires few { count_of self ≤ most_elements }
        requires inside { (p : ℕ) → p < view_size view.axes.items
            → reached view.start view.axes.items p < count_of self }
        requires count { view_size view.axes.items ≡ size_of dims.now }
        ensures { IfOk result (λ o. HasValues (operand_count o) (operand_at o) dims.now
            (λ index. meaning_along self.entry view.start view.axes.items
            (place dims.now index))) }
    {
        match self {
            Lowered::Borrowed(values) => {
                let list = CowSlice::Borrowed(values);
                Ok(Operand::Along(Viewed { list, view }))
            }
            Lowered::Stored(values) => {
                let list = CowSlice::Owned(values);
                Ok(Operand::Along(Viewed { list, view }))
            }
            lowered => {
                let viewed = view_over(alloc, lowered, view)?;
                Ok(Operand::InOrder(viewed.worked_out(alloc, dims)?))
            }
        }
    }

    /// Returns all values of a sunk expression in order: borrowed if they are an input's, or else
    /// computed.
    pub(crate) fn worked_out(
        self,
        alloc: Global,
        dims: &Dims,
    ) -> Result<CowSlice<'a, i64, Global>, AllocError>
        requires sound { IsSound self }
        requires count { count_of self ≡ size_of dims.now }
        ensures { IfOk result (λ v. HasValues (length (cow_slice_items v))
            (value_in (cow_slice_items v)) dims.now (meaning_at self.entry dims.now)) }
    {
        match self {
            Lowered::Borrowed(values) => Ok(CowSlice::Borrowed(values)),
            Lowered::Stored(values) => Ok(CowSlice::Owned(values)),
            lowered => {
                let values = lowered.values(alloc, alloc, 0, dims.size() as usize)?;
                Ok(CowSlice::Owned(values))
            }
        }
    }
}
