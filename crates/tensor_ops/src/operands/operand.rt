//! Operands of contractions: values in order, or a list that is read along a view, so that a
//! movement of a list isn't stored. The values are defined in specs/private/Operand.

ghost use Rattle.std.specs.Prelude.{◌≡◌, ◌<◌, ◌≤◌, ℕ, length, IfOk};
ghost use Rattle.std.specs.Cow.{cow_slice_items};
ghost use Rattle.tensor_shape.specs.Legal.{most_elements};
ghost use Rattle.tensor_values.specs.Values.{value_in};
ghost use Rattle.tensor_views.specs.View.{view_size, reached};

use std::alloc::{AllocError, Global};
use std::borrow::CowSlice;
use tensor_loops::picked_along;
use tensor_views::{Places, Reading, View};

/// A list that is read along a view.
#[derive(Drop)]
pub(crate) struct Viewed<'a> {
    pub(crate) list: CowSlice<'a, i64, Global>,
    pub(crate) view: View,
    ghost inside: { (p : ℕ) → p < view_size view.axes.items
        → reached view.start view.axes.items p < length (cow_slice_items list) },
    ghost few: { length (cow_slice_items list) ≤ most_elements },
}

/// The values of an operand at all its places.
#[derive(Drop)]
pub(crate) enum Operand<'a> {
    /// A list of the values in order.
    InOrder(CowSlice<'a, i64, Global>),
    /// A list and the view along which it is read.
    Along(Viewed<'a>),
}

impl<'a> Viewed<'a> {
    ghost use Rattle.tensor_ops.specs.private.Operand.{viewed_count, viewed_value};

    /// Returns the values in order. `count` is their number.
    pub(crate) fn into_list(
        self,
        alloc: Global,
        count: usize,
    ) -> Result<CowSlice<'a, i64, Global>, AllocError>
        requires { count ≡ viewed_count self }
        ensures count { IfOk result (λ v. length (cow_slice_items v) ≡ viewed_count self.entry) }
        ensures each { IfOk result (λ v. (p : ℕ) → p < viewed_count self.entry
            → value_in (cow_slice_items v) p ≡ viewed_value self.entry p) }
    {
        let reading = Reading {
            list: self.list.as_slice(),
            view: self.view.as_ref(),
        };
        let values = picked_along(alloc, reading, &Places::Run(0, count))?;
        Ok(CowSlice::Owned(values))
    }
}

impl<'a> Operand<'a> {
    ghost use Rattle.tensor_ops.specs.private.Operand.{operand_count, operand_at};

    /// Returns the values in order. `count` is their number.
    pub(crate) fn into_list(
        self,
        alloc: Global,
        count: usize,
    ) -> Result<CowSlice<'a, i64, Global>, AllocError>
        requires { count ≡ operand_count self }
        ensures count { IfOk result (λ v. length (cow_slice_items v) ≡ operand_count self.entry) }
        ensures each { IfOk result (λ v. (p : ℕ) → p < operand_count self.entry
            → value_in (cow_slice_items v) p ≡ operand_at self.entry p) }
    {
        match self {
            Operand::InOrder(values) => Ok(values),
            Operand::Along(viewed) => viewed.into_list(alloc, count),
        }
    }
}
