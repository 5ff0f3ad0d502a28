//! Steps that add a product to a sum: of two numbers here, of vectors of four in the modules. The
//! row sums of this crate and the tiles of tensor_kernels go by them.

pub mod halves;
pub mod small;

ghost use Rattle.std.specs.Prelude.{◌≡◌, ◌+ℤ◌, ◌*ℤ◌};
ghost use Rattle.tensor_shape.specs.Wrap.{wrap};

/// Returns `sum + x * y` modulo 2^64.
#[inline(always)]
pub fn mul_add(sum: i64, x: i64, y: i64) -> i64
    ensures { result ≡ wrap (sum +ℤ (x *ℤ y)) }
{
    let product = x.wrapping_mul(y);
    sum.wrapping_add(product)
}
