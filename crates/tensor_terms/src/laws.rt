//! Facts about the definitions, for all dims. Each function does nothing, and its contract is the
//! fact. A change of `merged` in `specs/Merged` touches the law.

ghost use Rattle.std.specs.Prelude.{List, ℕ, length, IsTrue};
ghost use Rattle.tensor_shape.specs.Index.{IsIndexOf};
ghost use Rattle.tensor_terms.specs.Reduction.{are_axes};
ghost use Rattle.tensor_terms.specs.Merged.{IsMergedOnce};

/// States that the index lists that a reduction or a contraction visits meet each index list of the
/// operand exactly once.
pub fn index_lists_are_merged_once()
    ensures { (axes ds index : List ℕ) → IsTrue (are_axes (length ds) axes) → IsIndexOf ds index
        → IsMergedOnce axes ds index }
{}
