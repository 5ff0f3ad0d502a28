//! What a lowered expression has at hand: values that take no operation. `filling`, `lowered`,
//! `chaining` and `operands` ask for these before they allocate.

ghost use Rattle.std.specs.Prelude.{◌≡◌, length, map, IfSome};
ghost use Rattle.tensor_ops.specs.private.Meaning.{meaning, count_of, IsSound};
ghost use Rattle.tensor_ops.specs.private.Meaning.{IsListOf, IsReadingOf, AreOthers};
ghost use Rattle.tensor_views.specs.Places.{places_of, AreBelow};

use crate::lowered::Lowered;
use tensor_loops::Others;
use tensor_views::{Places, Reading};

impl Lowered<'_> {
    /// Returns whether each value is in a list, at its own place or along a view, or is the one
    /// value of all places. So reading a value takes no operation.
    pub(crate) fn is_at_hand(&self) -> bool {
        match self {
            Lowered::Borrowed(_) | Lowered::Stored(_) | Lowered::Filled(_, _) => true,
            Lowered::View(_, operand) => operand.list().is_some(),
            _ => false,
        }
    }

    /// Returns the list and the view, if this is a view of a list.
    pub(crate) fn reading(&self) -> Option<Reading<'_>>
        requires { IsSound self.now }
        ensures { IfSome result (IsReadingOf self.now) }
    {
        let Lowered::View(view, operand) = self else {
            return None;
        };
        let list = operand.list()?;
        Some(Reading {
            list,
            view: view.as_ref(),
        })
    }

    /// Returns the values at places as a slice, if the places are a run and this is a list.
    pub(crate) fn run(&self, places: &Places<'_>) -> Option<&[i64]>
        requires { AreBelow places.now (count_of self.now) }
        ensures { IfSome result (λ values. values.now
            ≡ map (meaning self.now) (places_of places.now)) }
    {
        let Places::Run(first, last) = places else {
            return None;
        };
        let list = self.list()?;
        Some(&list[*first..*last])
    }

    /// Returns the values at places as the second operand of a loop, if that takes no memory: one
    /// value, or a slice of a list.
    pub(crate) fn others(&self, places: &Places<'_>) -> Option<Others<'_>>
        requires { AreBelow places.now (count_of self.now) }
        ensures { IfSome result (λ others. AreOthers others
            (map (meaning self.now) (places_of places.now))) }
    {
        if let Lowered::Filled(value, _) = self {
            return Some(Others::Filled(*value));
        }
        Some(Others::Listed(self.run(places)?))
    }

    /// Returns whether all places have one value.
    pub(crate) fn is_filled(&self) -> bool {
        match self {
            Lowered::Filled(_, _) => true,
            _ => false,
        }
    }

    /// Returns the values, if this is a list.
    pub(crate) fn list(&self) -> Option<&[i64]>
        ensures { IfSome result (λ values. IsListOf self.now values.now) }
    {
        match self {
            Lowered::Borrowed(values) => Some(values),
            Lowered::Stored(values) => Some(values.as_slice()),
            _ => None,
        }
    }
}
