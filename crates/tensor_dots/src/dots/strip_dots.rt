//! Contractions of operands whose rows are slices: each value is a sum over two slices, without
//! offsets. `StripDots` is what tensor_kernels puts in a `Contraction`; its values are defined in
//! specs/StripDots.

ghost use Rattle.std.specs.Prelude.{◌≡◌, ℕ, ◌*◌, ◌+◌, ◌+ℤ◌, ◌*ℤ◌, ◌<◌, ◌≤◌, length};
ghost use Rattle.tensor_shape.specs.Wrap.{wrap};
ghost use Rattle.tensor_values.specs.Values.{value_in};
ghost use Rattle.tensor_dots.specs.Products.{rows_dot, sum_to};
ghost use Rattle.tensor_dots.specs.Strips.{strip_count, strip_length, strip_value};

use crate::lanes::mul_add;
use crate::rows::strips::Strips;

/// Two operands, whose rows have equally many values. The value at place `p` of the result belongs
/// to row `p % rows` of the first operand and row `p / rows` of the second, where the first has
/// `rows` rows.
#[derive(Drop)]
pub struct StripDots<'a> {
    first: Strips<'a>,
    second: Strips<'a>,
    ghost widths: { first.width ≡ second.width },
}

impl<'a> StripDots<'a> {
    ghost use Rattle.tensor_dots.specs.StripDots.{strip_dots_count, strip_dots_value};

    /// Returns the contraction of two operands, to be evaluated value by value.
    pub fn of(first: Strips<'a>, second: Strips<'a>) -> StripDots<'a>
        requires { strip_length first ≡ strip_length second }
        ensures count { strip_dots_count result
            ≡ strip_count second.entry * strip_count first.entry }
        ensures value { (p : ℕ) → strip_dots_value result p
            ≡ rows_dot (strip_count first.entry) (strip_length first.entry)
            (strip_value first.entry) (strip_value second.entry) p }
    {
        StripDots { first, second }
    }

    /// Writes the values of the places from `first` on, as many as `out` has room for.
    pub fn fill(&self, first: usize, out: &mut [i64])
        requires { first + length out.old ≤ strip_dots_count self.now }
        ensures len { length out.new ≡ length out.old }
        ensures each { (k : ℕ) → k < length out.old
            → value_in out.new k ≡ strip_dots_value self.now (first + k) }
    {
        for k in 0..out.len() {
            out[k] = self.value(first + k);
        }
    }

    /// Returns the value at a place of the result.
    fn value(&self, place: usize) -> i64
        requires { place < strip_dots_count self.now }
        ensures { result ≡ strip_dots_value self.now place }
    {
        let rows = self.first.starts.len();
        dot(self.first.row(place % rows), self.second.row(place / rows))
    }
}

/// Returns the sum of products of two rows, modulo 2^64.
fn dot(a: &[i64], b: &[i64]) -> i64
    requires { length a.now ≡ length b.now }
    ensures { result ≡ wrap (sum_to (λ q. value_in a.now q *ℤ value_in b.now q) (length a.now)) }
{
    let mut sum = 0;
    for q in 0..a.len() {
        sum = mul_add(sum, a[q], b[q]);
    }
    sum
}

/// Returns `first` plus the sum of products of two rows, modulo 2^64.
pub fn sum_with_products(first: i64, a: &[i64], b: &[i64]) -> i64
    requires { length a.now ≡ length b.now }
    ensures { result ≡ wrap (first
        +ℤ sum_to (λ q. value_in a.now q *ℤ value_in b.now q) (length a.now)) }
{
    first.wrapping_add(dot(a, b))
}
