//! Chains: several operations with equal second operands become one node, so that one operand is
//! read once. `sinking` makes nodes by this; tensor_loops evaluates chains.

ghost use Rattle.std.specs.Prelude.{◌≡◌, ℕ, IfOk, IsTrue};
ghost use Rattle.tensor_loops.specs.Loops.{either_way};
ghost use Rattle.tensor_ops.specs.private.Meaning.{meaning, count_of, IsSound};
ghost use Rattle.tensor_ops.specs.private.Lowering.{IsOperationOn};

use crate::lowered::Lowered;
use crate::lowered::sinking::both;
use std::alloc::{AllocError, Global};
use tensor_loops::{Link, are_same};

impl<'a> Lowered<'a> {
    /// Returns an operation on each value of this and of another expression. If this already is an
    /// operation or a chain with an equal second operand, the result is a chain.
    pub(crate) fn chained(
        self,
        alloc: Global,
        link: Link,
        other: Lowered<'a>,
    ) -> Result<Lowered<'a>, AllocError>
        requires sound { IsSound self }
        requires other { IsSound other }
        requires same { count_of other ≡ count_of self }
        ensures { IfOk result (λ r. IsOperationOn r self.entry
            (λ p. either_way link.operation link.swapped
            (meaning self.entry p) (meaning other.entry p))) }
    {
        match self {
            Lowered::Binary(first, a, b) if read_the_same(&b, &other) => {
                let links = vec![in alloc; first, link]?;
                Ok(Lowered::Chain(links, a, b))
            }
            Lowered::Chain(mut links, a, b) if read_the_same(&b, &other) => {
                links.push(link)?;
                Ok(Lowered::Chain(links, a, b))
            }
            first => both(alloc, link, first, other),
        }
    }
}

/// Returns whether two operands are seen to have the same values: both read lists along one view,
/// and the lists are short and equal.
fn read_the_same(first: &Lowered<'_>, second: &Lowered<'_>) -> bool
    requires first { IsSound first.now }
    requires second { IsSound second.now }
    ensures { IsTrue result → (p : ℕ) → meaning first.now p ≡ meaning second.now p }
{
    match (first.reading(), second.reading()) {
        (Some(one), Some(other)) => are_same(&one, &other),
        _ => false,
    }
}
