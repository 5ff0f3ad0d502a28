//! Thirty-two rows of the result and a band of its columns, whose values are sums and differences
//! of Strassen's seven products. specs/private/Strassen defines which.

ghost use Rattle.std.specs.Prelude.{◌≡◌, ℕ, ◌*◌, ◌+◌, ◌-ℤ◌, ◌/◌, ◌%◌, ◌<◌, ◌≤◌, ◌+ℤ◌, length};
ghost use Rattle.tensor_shape.specs.Wrap.{wrap};
ghost use Rattle.tensor_values.specs.Values.{value_in};

use crate::panels::height::Height;
use crate::tiling::placing::Tile;
use crate::tiling::strassen::factors::{minus, plus};
use crate::tiling::strassen::products::Products;

/// Two panels of rows, in the columns of a band.
#[derive(Drop)]
pub(crate) struct Block<'a> {
    /// The number of the group of pairs of chunks. The sums of group 0 overwrite, the sums of later
    /// ones are added.
    pub(crate) number: usize,
    pub(crate) rows: usize,
    pub(crate) columns: usize,
    /// The number of columns in the first half of the band.
    pub(crate) half: usize,
    /// The block's number: its panels are `2 * block` and the next one.
    pub(crate) block: usize,
    pub(crate) products: &'a Products,
}

impl Block<'_> {
    ghost use Rattle.tensor_kernels.specs.private.Strassen.{IsBlock, IsPutInBlock, IsPutInColumn};
    ghost use Rattle.tensor_kernels.specs.private.Strassen.{quadrant_value, IsPutInPanel};

    /// Writes the block's sums to the places of the band from `from` on. Other places stay as they
    /// are.
    pub(crate) fn put(&self, from: usize, out: &mut [i64])
        requires block { IsBlock self.now }
        requires inside { from + length out.old ≤ self.now.columns * self.now.rows }
        ensures len { length out.new ≡ length out.old }
        ensures each { (k : ℕ) → k < length out.old
            → IsPutInBlock self.now (from + k) (value_in out.old k) (value_in out.new k) }
    {
        let first = from / self.rows;
        let last = (from + out.len()).div_ceil(self.rows);
        for j in first..last {
            self.put_column(j, from, out);
        }
    }

    /// Writes the block's sums in column `j`. Other places stay as they are.
    fn put_column(&self, j: usize, from: usize, out: &mut [i64])
        requires block { IsBlock self.now }
        requires column { j < self.now.columns }
        requires inside { from + length out.old ≤ self.now.columns * self.now.rows }
        ensures len { length out.new ≡ length out.old }
        ensures each { (k : ℕ) → k < length out.old
            → IsPutInColumn self.now j (from + k) (value_in out.old k) (value_in out.new k) }
    {
        self.put_panel(0, j, from, out);
        if (2 * self.block + 1) * 16 < self.rows {
            self.put_panel(1, j, from, out);
        }
    }

    /// Writes the sums of panel `r` of the block, 0 or 1, in column `j`. Other places stay as they
    /// are.
    fn put_panel(&self, r: usize, j: usize, from: usize, out: &mut [i64])
        requires block { IsBlock self.now }
        requires panel { r < 2 }
        requires rows { (2 * self.now.block + r) * 16 < self.now.rows }
        requires column { j < self.now.columns }
        requires inside { from + length out.old ≤ self.now.columns * self.now.rows }
        ensures len { length out.new ≡ length out.old }
        ensures each { (k : ℕ) → k < length out.old
            → IsPutInPanel self.now r j (from + k) (value_in out.old k) (value_in out.new k) }
    {
        let tile = Tile {
            rows: self.rows,
            height: Height::Sixteen,
            panel: 2 * self.block + r,
            column: j,
        };
        if tile.meets(from, out.len()) {
            tile.put(self.number, &self.sums(r, j), from, out);
        }
    }

    /// Returns the sums of panel `r` of the block in column `j`.
    fn sums(&self, r: usize, j: usize) -> [i64; 16]
        requires block { IsBlock self.now }
        requires panel { r < 2 }
        requires column { j < self.now.columns }
        ensures len { length result ≡ 16 }
        ensures each { (t : ℕ) → t < 16
            → value_in result t ≡ wrap (quadrant_value self.now.products.now r (j / self.now.half)
            (16 * (j % self.now.half) + t)) }
    {
        let m = self.products;
        let (s, column) = in_half(j, self.half);
        let k = 16 * column;
        match (r, s) {
            (0, 0) => three_less_one(&m.m1, &m.m4, &m.m7, &m.m5, k),
            (0, _) => two(&m.m3, &m.m5, k),
            (_, 0) => two(&m.m2, &m.m4, k),
            (_, _) => three_less_one(&m.m1, &m.m3, &m.m6, &m.m2, k),
        }
    }
}

/// Returns sixteen sums of values of two products, from place `k` on.
fn two(x: &[i64], y: &[i64], k: usize) -> [i64; 16]
    requires x { k + 16 ≤ length x.now }
    requires y { k + 16 ≤ length y.now }
    ensures len { length result ≡ 16 }
    ensures each { (t : ℕ) → t < 16
        → value_in result t ≡ wrap (value_in x.now (k + t) +ℤ value_in y.now (k + t)) }
{
    let mut sums = [0i64; 16];
    for t in 0..16 {
        sums[t] = plus(x[k + t], y[k + t]);
    }
    sums
}

/// Returns sixteen sums of values of three products less a fourth, from place `k` on.
fn three_less_one(x: &[i64], y: &[i64], z: &[i64], w: &[i64], k: usize) -> [i64; 16]
    requires x { k + 16 ≤ length x.now }
    requires y { k + 16 ≤ length y.now }
    requires z { k + 16 ≤ length z.now }
    requires w { k + 16 ≤ length w.now }
    ensures len { length result ≡ 16 }
    ensures each { (t : ℕ) → t < 16
        → value_in result t ≡ wrap (wrap (wrap (value_in x.now (k + t) +ℤ value_in y.now (k + t))
        +ℤ value_in z.now (k + t)) -ℤ value_in w.now (k + t)) }
{
    let mut sums = [0i64; 16];
    for t in 0..16 {
        sums[t] = plus_minus(x[k + t], y[k + t], z[k + t], w[k + t]);
    }
    sums
}

/// Returns `x + y + z - w`, modulo 2^64.
#[inline(always)]
fn plus_minus(x: i64, y: i64, z: i64, w: i64) -> i64
    ensures { result ≡ wrap (wrap (wrap (x +ℤ y) +ℤ z) -ℤ w) }
{
    minus(plus(plus(x, y), z), w)
}

/// Returns the half that column `j` is in, and its number there. A division would take longer.
#[inline(always)]
fn in_half(j: usize, half: usize) -> (usize, usize)
    requires { j < 2 * half }
    ensures which { result.0 ≡ j / half }
    ensures column { result.1 ≡ j % half }
{
    if j < half { (0, j) } else { (1, j - half) }
}
