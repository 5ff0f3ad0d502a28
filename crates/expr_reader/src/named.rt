//! The tensors of a request by name and by number: the inputs, and then the bindings. `node.rt`
//! looks names up here, and `expression.rt` adds the bindings; `IsNamed` in `specs/private/Shown`
//! says what the numbers mean.

ghost use Rattle.std.specs.Prelude.{◌≡◌, ◌+◌, ◌^◌, ◌<◌, ◌≤◌, ◌⊎◌, ◌∷◌, [], ◌++◌, ℕ, List, length};
ghost use Rattle.std.specs.Prelude.{codes, Some, None, option_map};
ghost use Rattle.std.specs.Prelude.{Ok, Err, MatchResult, OnOk, IfOk, IfErr, if◌then◌else◌};
ghost use Rattle.std.specs.Option.{option_or};
ghost use Rattle.std.specs.Str.{bytes_eq};
ghost use Rattle.serde_json.specs.View.{view, members_view};
ghost use Rattle.tensor_ops.specs.Bounds.{Bounds};
ghost use Rattle.tensor_ops.specs.Contents.{input_of};
ghost use Rattle.tensor_ops.specs.Legal.{IsPossible};
ghost use Rattle.expr_reader.specs.Bindings.{term_under, IsBound};
ghost use Rattle.expr_reader.specs.Expression.{new_name, with_binding};
ghost use Rattle.expr_reader.specs.private.Behind.{source_of, tensors_by, place_by, naming_by};
ghost use Rattle.expr_reader.specs.private.Counted.{member_count};
ghost use Rattle.expr_reader.specs.Limits.{most_bytes};
ghost use Rattle.expr_reader.specs.Located.{steps_under};
ghost use Rattle.expr_reader.specs.private.Numbers.{number_in};
ghost use Rattle.expr_reader.specs.Place.{field, below};
ghost use Rattle.expr_reader.specs.private.Shown.{IsNamed};
ghost use Rattle.expr_reader.specs.Tensors.{Named, names_in, number_of};

use crate::binding::Binding;
use crate::fault::Fault;
use crate::known::KnownInputs;
use crate::place::Place;
use crate::values::Values;
use serde_json::{Map, Value};
use std::alloc::Global;
use std::collections::BTreeMap;
use tensor_ops::{Bounds, Dims};

/// The inputs, the bindings, and the number of each by its name. The map is ordered and has no
/// hashes, so no choice of names makes it slow.
#[derive(Drop)]
pub(crate) struct NamedInputs<'v, 'a> {
    pub(crate) alloc: Global,
    pub(crate) numbers: BTreeMap<&'v str, u32>,
    pub(crate) inputs: KnownInputs<'a>,
    pub(crate) bindings: Vec<Binding>,
}

impl<'v, 'a> NamedInputs<'v, 'a> {
    /// Reads the tensor of each member of an object, and numbers them in the order of their names.
    /// On a fault, `place` is set to the input or the field that has it.
    pub(crate) fn read(
        alloc: Global,
        value: &'v Value,
        bounds: Bounds,
        values: Values<'a>,
        place: &mut Place<'v>,
    ) -> Result<NamedInputs<'v, 'a>, Fault>
        requires bounds { IsPossible bounds }
        requires few { member_count (view value.now) ≤ most_bytes + 1 }
        ensures inputs { MatchResult result
            (λ found. (n : Named)
            × (naming_by (source_of values.entry) bounds (view value.now) ≡ Ok n)
            × IsNamed found bounds n)
            (λ fault. (fault ≡ Fault.NoMemory)
            ⊎ (below (field (codes "inputs"))
            (naming_by (source_of values.entry) bounds (view value.now))
            ≡ Err (record { fault = fault; place = steps_under place.new }))) }
        ensures unbound { IfOk result (λ found. found.bindings.items ≡ []) }
    {
        let Some(members) = value.as_object() else {
            *place = Place::Field("inputs");
            return Err(Fault::BadTensor);
        };
        read_members(alloc, members, bounds, values, place)
    }

    /// Returns the number of the input or binding with this name.
    pub(crate) fn number(&self, name: &str) -> Option<u32>
        ensures { (bounds : Bounds) (n : Named) → IsNamed self.now bounds n
            → result ≡ number_of n.names name.now }
    {
        self.numbers.get(name).copied()
    }

    /// Returns the dims of the tensor with this number.
    pub(crate) fn dims(&self, number: u32) -> &Dims
        requires { number < length self.now.inputs.tensors + length self.now.bindings.items }
        ensures { (bounds : Bounds) (n : Named) → IsNamed self.now bounds n
            → result.now ≡ (input_of n.tensors number).dims }
    {
        let count = self.inputs.len();
        if number < count {
            return self.inputs.dims(number);
        }
        &self.bindings[(number - count) as usize].dims
    }

    /// Returns the name that a JSON string gives, if no input and no binding has it.
    pub(crate) fn new_name(&self, value: &'v Value) -> Option<&'v str>
        ensures { (bounds : Bounds) (n : Named) → IsNamed self.now bounds n
            → option_map (λ name. name.now) result ≡ new_name n (view value.now) }
    {
        let name = value.as_str()?;
        if self.numbers.contains_key(name) {
            return None;
        }
        Some(name)
    }

    /// Appends a binding, and gives it the next number and this name.
    pub(crate) fn bind(&mut self, name: &'v str, binding: Binding) -> Result<(), Fault>
        requires few { length self.old.inputs.tensors + length self.old.bindings.items < 2 ^ 32 }
        ensures ok { OnOk result ((bounds : Bounds) (n : Named) → IsNamed self.old bounds n
            → IsBound bounds binding n.tensors
            → IsNamed self.new bounds (with_binding n name.now (term_under binding))) }
        ensures inputs { self.new.inputs ≡ self.old.inputs }
        ensures bindings { OnOk result
            (self.new.bindings.items ≡ self.old.bindings.items ++ binding ∷ []) }
        ensures err { IfErr result (λ fault. fault ≡ Fault.NoMemory) }
    {
        let number = self.inputs.len() + self.bindings.len() as u32;
        put_first(&mut self.numbers, name, number)?;
        let Ok(()) = self.bindings.push(binding) else {
            return Err(Fault::NoMemory);
        };
        Ok(())
    }
}

/// Reads the tensors of the members of `inputs` and numbers them. If values follow the text, the
/// first member gets the first of them, the second the next, and so on; none may be left at the
/// end.
fn read_members<'v, 'a>(
    alloc: Global,
    members: &'v Map<String, Value>,
    bounds: Bounds,
    values: Values<'a>,
    place: &mut Place<'v>,
) -> Result<NamedInputs<'v, 'a>, Fault>
    requires bounds { IsPossible bounds }
    requires few { length members.now.entries ≤ most_bytes + 1 }
    ensures inputs { MatchResult result
        (λ found. (n : Named)
        × (tensors_by (source_of values.entry) bounds (members_view members.now.entries)
        ≡ Some n.tensors)
        × (n.names ≡ names_in (members_view members.now.entries)) × IsNamed found bounds n)
        (λ fault. (fault ≡ Fault.NoMemory) ⊎ ((fault ≡ Fault.BadTensor)
        × (tensors_by (source_of values.entry) bounds (members_view members.now.entries) ≡ None)
        × (steps_under place.new ≡ field (codes "inputs")
        ∷ place_by (source_of values.entry) bounds (members_view members.now.entries)))) }
    ensures unbound { IfOk result (λ found. found.bindings.items ≡ []) }
{
    let mut numbers = BTreeMap::new(alloc);
    let mut tensors = Vec::new(alloc);
    let mut left = values;
    for (name, value) in members {
        let tensor = match left.first_tensor(alloc, value, bounds) {
            Ok(tensor) => tensor,
            Err(fault) => {
                *place = Place::Input(name.as_str());
                return Err(fault);
            }
        };
        left = left.without(&tensor);
        let number = tensors.len() as u32;
        put_first(&mut numbers, name.as_str(), number)?;
        let Ok(()) = tensors.push(tensor) else {
            return Err(Fault::NoMemory);
        };
    }
    if !left.is_end() {
        *place = Place::Field("inputs");
        return Err(Fault::BadTensor);
    }
    let inputs = KnownInputs::with_bounds(tensors, bounds);
    let bindings = Vec::new(alloc);
    Ok(NamedInputs {
        alloc,
        numbers,
        inputs,
        bindings,
    })
}

/// Gives a name this number, unless the name has one.
fn put_first<'v>(
    numbers: &mut BTreeMap<&'v str, u32>,
    name: &'v str,
    number: u32,
) -> Result<(), Fault>
    ensures ok { OnOk result ((other : List ℕ) → number_in numbers.new other
        ≡ option_or (number_in numbers.old other)
        (if bytes_eq other name.now then Some number else None)) }
    ensures err { IfErr result (λ fault. fault ≡ Fault.NoMemory) }
{
    if numbers.contains_key(name) {
        return Ok(());
    }
    match numbers.insert(name, number) {
        Ok(_) => Ok(()),
        Err(_) => Err(Fault::NoMemory),
    }
}
