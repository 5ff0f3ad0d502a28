//! Why values may be evaluated shard by shard. Each function does nothing, and its contract is the
//! fact. The README cites them by name.

ghost use Rattle.std.specs.Prelude.{◌≡◌, ◌-◌, List, ℕ, ℤ, length, map};
ghost use Rattle.std.specs.Int.{w64};
ghost use Rattle.std.specs.Int.RustNames.{FitsSigned};
ghost use Rattle.std.specs.List.{range_with_len};
ghost use Rattle.tensor_ops.specs.Index.{size_of};
ghost use Rattle.tensor_ops.specs.Contraction.{firsts, contracted};
ghost use Rattle.tensor_ops.specs.Parts.{reduced_part, contracted_part};
ghost use Rattle.tensor_ops.specs.Combining.{unit, combine, combination};
ghost use Rattle.tensor_ops.specs.Reduction.{reduced};
ghost use Rattle.tensor_ops.specs.Merged.{among, dims_at};
ghost use Rattle.tensor_ops.specs.Reducer.{Reducer};
ghost use Rattle.tensor_ops.specs.Reducer.TheVariants.{Sum};
ghost use Rattle.tensor_reduce.specs.Reducers.{alone};
ghost use Rattle.tensor_reduce.specs.Shards.{shards_of, lists_of};

/// Values may be combined in any grouping and in any order. The unit and a value give what the
/// value alone gives: itself if it is in the `i64` range, but for All and Any whether it is true.
pub fn reducers_combine_in_any_grouping()
    ensures grouping { (r : Reducer) (x y z : ℤ)
        → combine r (combine r x y) z ≡ combine r x (combine r y z) }
    ensures order { (r : Reducer) (x y : ℤ) → combine r x y ≡ combine r y x }
    ensures unit { (r : Reducer) (x : ℤ) → FitsSigned w64 x → combine r (unit r) x ≡ alone r x }
{}

/// The shards meet each index list once, in order, for any block.
pub fn shards_meet_each_index_list_once()
    ensures { (inner block : ℕ)
        → lists_of (shards_of inner block) ≡ range_with_len 0 inner }
{}

/// What the shards contribute to a value of a reduction, each from the unit, is the value if it is
/// combined in order from the unit.
pub fn shards_give_the_reduction()
    ensures { (r : Reducer) (axes ds : List ℕ) (a : List ℕ → ℤ) (is : List ℕ) (block : ℕ)
        → combination r (map (λ s. reduced_part r axes ds a is s.0 (s.1 - s.0))
        (shards_of (size_of (dims_at (among axes (length ds)) ds)) block))
        ≡ reduced r axes ds a is }
{}

/// What the shards contribute to a value of a contraction, each a sum, is the value if it is added
/// up modulo 2^64.
pub fn shards_give_the_contraction()
    ensures { (pairs : List (ℕ × ℕ)) (ds es : List ℕ) (a b : List ℕ → ℤ) (is : List ℕ)
        (block : ℕ)
        → combination Sum (map (λ s. contracted_part pairs ds es a b is s.0 (s.1 - s.0))
        (shards_of (size_of (dims_at (firsts pairs) ds)) block))
        ≡ contracted pairs ds es a b is }
{}
