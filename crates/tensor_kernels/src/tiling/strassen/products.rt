//! Strassen's seven products of sixteen rows and half of a band's columns, added up over the pairs
//! of chunks of a group. `block` reads them.

ghost use Rattle.std.specs.Prelude.{◌≡◌, ℕ, ◌*◌, ◌+ℤ◌, ◌<◌, ◌≤◌, length, IfOk};
ghost use Rattle.tensor_shape.specs.Wrap.{wrap};
ghost use Rattle.tensor_kernels.specs.Chunks.{before};
ghost use Rattle.tensor_kernels.specs.private.Strassen.{IsPanels, product_sum};
ghost use Rattle.tensor_values.specs.Values.{value_in};

use crate::panels::Panels;
use crate::panels::height::Height;
use crate::tiling::packed_chunk::PackedChunk;
use crate::tiling::placing::add_run;
use crate::tiling::strassen::factors::Factors;
use std::alloc::{AllocError, Global};

/// The seven products. Each has sixteen values, one a row, for each column.
#[derive(Drop)]
pub(crate) struct Products {
    pub(crate) m1: Vec<i64>,
    pub(crate) m2: Vec<i64>,
    pub(crate) m3: Vec<i64>,
    pub(crate) m4: Vec<i64>,
    pub(crate) m5: Vec<i64>,
    pub(crate) m6: Vec<i64>,
    pub(crate) m7: Vec<i64>,
}

impl Products {
    ghost use Rattle.tensor_kernels.specs.private.Strassen.{AreAdded, AreLong, ArePanels};

    /// Returns room for the products of `n` columns.
    pub(crate) fn of(alloc: Global, n: usize) -> Result<Products, AllocError>
        requires { n ≤ 256 }
        ensures { IfOk result (AreLong (16 * n)) }
    {
        Ok(Products {
            m1: vec![in alloc; 0i64; 16 * n]?,
            m2: vec![in alloc; 0i64; 16 * n]?,
            m3: vec![in alloc; 0i64; 16 * n]?,
            m4: vec![in alloc; 0i64; 16 * n]?,
            m5: vec![in alloc; 0i64; 16 * n]?,
            m6: vec![in alloc; 0i64; 16 * n]?,
            m7: vec![in alloc; 0i64; 16 * n]?,
        })
    }

    /// Adds the products of sixteen rows and `n` columns in a pair of chunks. Pair 0 overwrites.
    pub(crate) fn add(&mut self, pair: usize, rows: &Factors, columns: &Factors, n: usize)
        requires few { n ≤ 256 }
        requires long { AreLong (16 * n) self.old }
        requires rows { ArePanels 16 1 rows.now }
        requires columns { ArePanels 1 n columns.now }
        ensures { AreAdded pair rows.now columns.now n self.old self.new }
    {
        add_product(pair, &rows.m1, &columns.m1, n, &mut self.m1);
        add_product(pair, &rows.m2, &columns.m2, n, &mut self.m2);
        add_product(pair, &rows.m3, &columns.m3, n, &mut self.m3);
        add_product(pair, &rows.m4, &columns.m4, n, &mut self.m4);
        add_product(pair, &rows.m5, &columns.m5, n, &mut self.m5);
        add_product(pair, &rows.m6, &columns.m6, n, &mut self.m6);
        add_product(pair, &rows.m7, &columns.m7, n, &mut self.m7);
    }
}

/// Adds one of the seven products: for each of sixteen rows and each of `n` columns a sum of 128
/// products.
fn add_product(pair: usize, rows: &Panels, columns: &Panels, n: usize, sums: &mut [i64])
    requires few { n ≤ 256 }
    requires long { length sums.old ≡ 16 * n }
    requires rows { IsPanels 16 1 rows.now }
    requires columns { IsPanels 1 n columns.now }
    ensures len { length sums.new ≡ 16 * n }
    ensures each { (k : ℕ) → k < 16 * n → value_in sums.new k
        ≡ wrap (before pair (value_in sums.old k) +ℤ product_sum rows.now columns.now k) }
{
    let chunk = PackedChunk {
        number: 0,
        products: 128,
        rows: 16,
        columns: n,
        height: Height::Sixteen,
        small: false,
        first: rows,
        second: columns,
    };
    for j in 0..n {
        let column = &mut sums[16 * j..16 * j + 16];
        add_run(pair, &chunk.tile(0, j), column);
    }
}
