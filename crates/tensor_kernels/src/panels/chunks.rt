//! Where the products of a contraction are cut into chunks, so that packed panels stay in the
//! caches while they are used. The width is in specs/Chunks and in the proofs of `tiling` too.

ghost use Rattle.std.specs.Prelude.{◌≡◌, ◌*◌, ◌+◌, ◌<◌, ◌≤◌, ◌^◌};
ghost use Rattle.tensor_kernels.specs.Chunks.{chunk};

/// The number of products in each chunk but the last, which may have fewer. A panel of sixteen rows
/// of a chunk takes 16 KB.
const CHUNK: usize = 128;

/// Returns the number of chunks that the given number of products is cut into. If there are no
/// products there is one empty chunk.
pub(crate) fn chunk_count(products: usize) -> usize
    ensures some { 0 < result }
    ensures few { result ≤ products + 1 }
    ensures all { products ≤ result * 128 }
{
    products.div_ceil(CHUNK).max(1)
}

/// Returns the offsets of chunk `c` of the products.
pub(crate) fn chunk_of(offsets: &[usize], c: usize) -> &[usize]
    requires { c < 2 ^ 32 }
    ensures { result.now ≡ chunk offsets.now c }
{
    let products = offsets.len();
    &offsets[(c * CHUNK).min(products)..((c + 1) * CHUNK).min(products)]
}
