//! Reads the expression of a request: bindings (`let`), each of which gives the tensor of a tree a
//! name, and then a tree in which all these names are known. What is read is defined in
//! `specs/Expression`.

ghost use Rattle.std.specs.Prelude.{◌≡◌, ◌+◌, ◌-◌, ◌≤◌, [], length};
ghost use Rattle.serde_json.specs.View.{view};
ghost use Rattle.expr_reader.specs.Expression.{expression_at};
ghost use Rattle.expr_reader.specs.Limits.{most_bytes, widest_nodes};
ghost use Rattle.expr_reader.specs.private.Shown.{IsNamed};
ghost use Rattle.expr_reader.specs.private.Version.{profile_under};
ghost use Rattle.expr_reader.specs.private.Walked.{is_binding, IsReadBehind};
ghost use Rattle.expr_reader.specs.Tensors.{Named};

use crate::binding::Binding;
use crate::fault::Fault;
use crate::named::NamedInputs;
use crate::node::{Subtree, behind, read_node};
use crate::place::Indices;
use crate::version::Version;
use serde_json::Value;
use std::alloc::Global;

/// How many elements the node of a `let` has: the word `let`, the name, the tree of the tensor, and
/// the expression in which the tensor has the name.
const LET_LEN: usize = 4;

/// Reads an expression that has `before` nodes of the text before it. Its bindings are appended to
/// `named`, and its tree is returned. On a fault, `way` gets the indices of the elements on the way
/// to it, the innermost first.
pub(crate) fn read_expression<'v>(
    alloc: Global,
    version: Version,
    named: &mut NamedInputs<'v, '_>,
    value: &'v Value,
    before: u64,
    way: &mut Indices,
) -> Result<Subtree, Fault>
    requires named { (n : Named) × IsNamed named.old (profile_under version).bounds n }
    requires start { way.old.items ≡ [] }
    requires few { length named.old.inputs.tensors + length named.old.bindings.items
        ≤ most_bytes + 1 + before }
    ensures tree { (n : Named) → IsNamed named.old (profile_under version).bounds n
        → IsReadBehind (profile_under version) n
        (expression_at (profile_under version) n before (view value.now))
        named.old named.new way.new.items result }
    ensures short { length way.new.items ≤ widest_nodes - before }
{
    if !is_binding(version, value) {
        return read_node(alloc, version, named, value, before, way);
    }
    match value {
        Value::Array(list) => {
            if before >= version.nodes() {
                return Err(Fault::TooLarge);
            }
            if list.len() != LET_LEN {
                return Err(Fault::BadArity);
            }
            let Some(name) = named.new_name(&list[1]) else {
                way.push(1);
                return Err(Fault::BadArgument);
            };
            let bound = read_node(alloc, version, named, &list[2], before + 1, way);
            let bound = behind(2, bound, way)?;
            let end = bound.end;
            let binding = Binding {
                expr: bound.expr,
                dims: bound.dims,
            };
            named.bind(name, binding)?;
            let tree = read_expression(alloc, version, named, &list[3], end, way);
            behind(3, tree, way)
        }
        _ => unreachable!(),
    }
}

/// Returns whether a node is a `let`.
fn is_binding(version: Version, value: &Value) -> bool
    ensures { result ≡ is_binding (profile_under version) (view value.now) }
{
    match value {
        Value::Array(list) => match list.first() {
            Some(head) => version.is_let(head),
            None => false,
        },
        _ => false,
    }
}
