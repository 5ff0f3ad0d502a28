//! Writes results to the caller's memory. Whether a result fits is checked before the first element
//! is written.

ghost use Rattle.std.specs.Prelude.{◌≡◌, ◌≤◌, ◌<◌, Ok, length, IsTrue};
ghost use Rattle.expr_reader.specs.Contents.{Contents};
ghost use Rattle.expr_reader.specs.Index.{size_of};
ghost use Rattle.tensor_c.specs.Call.{begun, called, called_for_dims, called_for_name};
ghost use Rattle.tensor_c.specs.Call.{has_room, no_room, ranked};

use crate::faults::result_of;
use expr_reader::{Dims, Fault, Tensor};

/// The result if the caller's memory is too short.
pub(crate) const NO_ROOM: i64 = -100;

/// Returns whether `out` has room for the values of a tensor with dims `sizes`, and `dims` for its
/// rank and dims.
pub(crate) fn has_room(sizes: &Dims, out: &[i64], dims: &[u64]) -> bool
    ensures { (t : Contents) → t.dims ≡ sizes.now → length t.values ≡ size_of sizes.now
        → result ≡ has_room t out.now dims.now }
{
    sizes.size() <= out.len() as u64 && sizes.rank() < dims.len()
}

/// Writes the values of a tensor, and its rank and dims. Returns the number of values.
pub(crate) fn put_tensor(tensor: &Tensor, out: &mut [i64], dims: &mut [u64]) -> i64
    requires { IsTrue (has_room tensor.now out.old dims.old) }
    ensures { record { result = result; out = out.new; dims = dims.new }
        ≡ called (Ok tensor.now) out.old dims.old }
{
    let (values, sizes) = (tensor.values(), tensor.dims());
    put_first(out, values);
    put_ranked(dims, sizes.as_slice());
    sizes.size() as i64
}

/// Writes the rank and the dims if they fit, and returns the product of the dims. Otherwise returns
/// [`NO_ROOM`].
fn put_dims(found: &Dims, dims: &mut [u64]) -> i64
    ensures { record { result = result; dims = dims.new }
        ≡ called_for_dims (Ok found.now) dims.old }
{
    if dims.len() <= found.rank() {
        return NO_ROOM;
    }
    put_ranked(dims, found.as_slice());
    found.size() as i64
}

/// Writes the dims that were found, as [`put_dims`] does, or returns the result for a fault. So too
/// little room is never reported as an allocation failure.
pub(crate) fn put_found(found: Result<Dims, Fault>, dims: &mut [u64]) -> i64
    ensures { record { result = result; dims = dims.new } ≡ called_for_dims found dims.old }
{
    match found {
        Ok(found) => put_dims(&found, dims),
        Err(fault) => result_of(fault),
    }
}

/// Writes a text and a 0 byte after it if they fit, and returns the text's length in bytes.
/// Otherwise returns [`NO_ROOM`].
pub(crate) fn put_text(text: &[u8], to: &mut [u8]) -> i64
    ensures { record { result = result; name = to.new } ≡ called_for_name text.now to.old }
{
    if to.len() <= text.len() {
        return NO_ROOM;
    }
    to[text.len()] = 0;
    put_first(to, text);
    text.len() as i64
}

/// Writes the rank, and then the dims `sizes`.
pub(crate) fn put_ranked(dims: &mut [u64], sizes: &[u64])
    requires { length sizes.now < length dims.old }
    ensures { dims.new ≡ begun (ranked sizes.now) dims.old }
{
    dims[0] = sizes.len() as u64;
    put_first(&mut dims[1..], sizes);
}

/// Writes elements over the first elements of a list.
pub(crate) fn put_first<T: Copy>(to: &mut [T], from: &[T])
    requires { length from.now ≤ length to.old }
    ensures { to.new ≡ begun from.now to.old }
{
    to[..from.len()].copy_from_slice(from);
}
