//! Lists of items of one type: sizes, values, flags or pairs of sizes. Another form of argument is
//! another `impl Item`, and a `Form` in `specs/Arguments`.

ghost use Rattle.std.specs.Prelude.{◌≡◌, Option};
ghost use Rattle.serde_json.specs.Data.{Data};
ghost use Rattle.serde_json.specs.View.{view};
ghost use Rattle.expr_reader.specs.Fields.{list_in};
ghost use Rattle.expr_reader.specs.private.Outcome.{IsReadOr};

use crate::MAX_SIZE;
use crate::fault::Fault;
use crate::fields::within;
use serde_json::Value;
use std::alloc::Global;

/// A type that a JSON value may be read as, alone or in a list.
pub(crate) trait Item: Copy {
    ghost item_in: { Data → Option Self };

    /// Returns the item that a value is, or `None` if it is not one.
    fn of(value: &Value) -> Option<Self>
        ensures { result ≡ item_in (view value.now) };
}

/// A size is a whole number from 0 to [`MAX_SIZE`].
impl Item for u64 {
    ghost use Rattle.expr_reader.specs.Arguments.{size_in};

    ghost item_in = { size_in };

    fn of(value: &Value) -> Option<u64> {
        within(value, 0, MAX_SIZE)
    }
}

/// A value of a tensor is a whole number of the `i64` range.
impl Item for i64 {
    ghost use Rattle.expr_reader.specs.Fields.{signed_of};

    ghost item_in = { signed_of };

    fn of(value: &Value) -> Option<i64> {
        value.as_i64()
    }
}

/// A flag is `true` or `false`.
impl Item for bool {
    ghost use Rattle.serde_json.specs.Find.{as_bool};

    ghost item_in = { as_bool };

    fn of(value: &Value) -> Option<bool> {
        value.as_bool()
    }
}

/// A pair is an array of two sizes.
impl Item for (u64, u64) {
    ghost use Rattle.expr_reader.specs.Arguments.{pair_in};

    ghost item_in = { pair_in };

    fn of(value: &Value) -> Option<(u64, u64)> {
        match value.as_array()?.as_slice() {
            [first, second] => Some((u64::of(first)?, u64::of(second)?)),
            _ => None,
        }
    }
}

/// Reads an item. A value that is not one has the given fault.
pub(crate) fn read_item<T: Item>(value: &Value, fault: Fault) -> Result<T, Fault>
    ensures { IsReadOr fault (λ item. item) (T.item_in (view value.now)) result }
{
    T::of(value).ok_or(fault)
}

/// Reads an array of items. A value that is no array, or has an element that is no item, has the
/// given fault.
pub(crate) fn read_list<T: Item>(
    alloc: Global,
    value: &Value,
    fault: Fault,
) -> Result<Vec<T>, Fault>
    ensures { IsReadOr fault (λ items. items.items)
        (list_in T.item_in (view value.now)) result }
{
    let list = value.as_array().ok_or(fault)?;
    let Ok(mut items) = Vec::with_capacity(alloc, list.len()) else {
        return Err(Fault::NoMemory);
    };
    for item in list {
        let item = read_item(item, fault)?;
        items.push_reserved(item);
    }
    Ok(items)
}
