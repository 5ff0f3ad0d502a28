//! The values of one tensor in memory of their own. Callers in C pass this struct, so its layout is
//! fixed: `tensor_array` of `include/tensor.h` has the same fields.

/// A borrowed slice with all values of one tensor.
#[repr(C)]
#[derive(Drop)]
pub struct Array<'a> {
    /// The values in column-major order.
    pub values: &'a [i64],
}
