//! Laws of calls for parts: how the parts of an answer, or a plan and its header, belong together.
//! Each function does nothing, and its contract is the law.

ghost use Rattle.std.specs.Prelude.{◌≡◌, ◌≤◌, ◌+◌, ◌++◌, ℕ, ℤ, List, length, Result, Ok};
ghost use Rattle.expr_reader.specs.Arrays.{joined};
ghost use Rattle.expr_reader.specs.Contents.{Contents};
ghost use Rattle.expr_reader.specs.Frame.{request_of_frame, values_limit};
ghost use Rattle.expr_reader.specs.Request.{Asked};
ghost use Rattle.expr_reader.specs.declared.fault.Fault.{Fault};
ghost use Rattle.prepared_expressions.specs.Prepared.{prepared_of};
ghost use Rattle.tensor_c.specs.Answer.{answer_of_arrays};
ghost use Rattle.tensor_c.specs.Part.{part_of, called_for_part};
ghost use Rattle.tensor_c.specs.Plan.{answer_of_plan};

/// A part and the part after it, joined, are one part. A part from place 0 with enough room is all
/// values.
pub fn parts_make_the_whole()
    ensures joined { (values : List ℤ) (first n m : ℕ)
        → part_of values first n ++ part_of values (first + n) m
        ≡ part_of values first (n + m) }
    ensures whole { (values : List ℤ) (room : ℕ) → length values ≤ room
        → part_of values 0 room ≡ values }
{}

/// Two calls for parts of one answer, the second from the place where the first list ends, write
/// what one call writes to both lists joined.
pub fn calls_for_parts_are_one()
    ensures { (answer : Result Contents Fault) (first : ℕ) (out behind : List ℤ)
        → (called_for_part answer first out).out
        ++ (called_for_part answer (first + length out) behind).out
        ≡ (called_for_part answer first (out ++ behind)).out }
{}

/// A plan has the answer over arrays that its header has over them, whatever values it was prepared
/// with. The arrays must not have more values in all than may follow the header.
pub fn plans_answer_for_headers()
    ensures { (header : List ℕ) (values : List ℤ) (arrays : List (List ℤ)) (a : Asked)
        → request_of_frame header values ≡ Ok a → length (joined arrays) ≤ values_limit header
        → answer_of_plan (prepared_of a) arrays ≡ answer_of_arrays header arrays }
{}
