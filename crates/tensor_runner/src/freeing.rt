//! Frees the tensors of bindings that nothing still to be evaluated reads. Only `eval` uses it;
//! that it changes no result is specs/private/Held.antt.

ghost use Rattle.std.specs.Prelude.{◌≡◌, ◌+◌, ◌<◌, List, drop, length};
ghost use Rattle.expr_reader.specs.Contents.{Contents};
ghost use Rattle.expr_reader.specs.Tree.{term_of};
ghost use Rattle.tensor_runner.specs.private.Held.{is_read, AreHeldFor};

use expr_reader::{Binding, Expr, Inputs, Request};
use tensor_reduce::reads;

/// Frees tensors of bindings after binding `done` was evaluated, if neither a later binding nor the
/// expression reads them. Only its own tensor, the last, and the tensors that it reads are looked
/// at.
pub(crate) fn free_unread(request: &Request<'_>, done: usize, tensors: &mut Inputs<'_>)
    requires { done < length request.now.bindings.items }
    ensures held { (all : List Contents) → AreHeldFor (drop (done + 1) request.now.bindings.items)
        (term_of request.now.expr) tensors.old.tensors all
        → AreHeldFor (drop (done + 1) request.now.bindings.items)
        (term_of request.now.expr) tensors.new.tensors all }
    ensures limit { tensors.new.bounds ≡ tensors.old.bounds }
{
    let reader = &request.bindings[done].expr;
    let left = &request.bindings[done + 1..];
    let count = tensors.len();
    for number in request.inputs.len()..count {
        let is_done = number + 1 == count || reads(reader, number);
        if is_done && !is_read(left, &request.expr, number) {
            tensors.free(number);
        }
    }
}

/// Returns whether one of the bindings `left` or the expression reads tensor `number`.
fn is_read(left: &[Binding], expr: &Expr, number: u32) -> bool
    ensures { result ≡ is_read number left.now (term_of expr.now) }
{
    for binding in left {
        if reads(&binding.expr, number) {
            return true;
        }
    }
    reads(expr, number)
}
