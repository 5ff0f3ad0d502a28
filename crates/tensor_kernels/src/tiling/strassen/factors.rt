//! The factors of Strassen's seven products: quarters of an operand, and sums and differences of
//! two quarters, modulo 2^64. specs/private/Strassen defines which.

ghost use Rattle.std.specs.Prelude.{◌≡◌, ℕ, ◌+ℤ◌, ◌-ℤ◌, ◌<◌, length, IfOk};
ghost use Rattle.tensor_shape.specs.Wrap.{wrap};
ghost use Rattle.tensor_values.specs.Values.{value_in};
ghost use Rattle.tensor_kernels.specs.private.Quartering.{half_size};
ghost use Rattle.tensor_kernels.specs.private.Strassen.{IsFactor};

use crate::panels::Panels;
use crate::panels::pair_sums::pair_sums;
use crate::tiling::strassen::half::Half;
use crate::tiling::strassen::quarters::{Quarter, Quarters};
use std::alloc::{AllocError, Global};

/// An operand's factor of each of the seven products, as panels.
#[derive(Drop)]
pub(crate) struct Factors {
    pub(crate) m1: Panels,
    pub(crate) m2: Panels,
    pub(crate) m3: Panels,
    pub(crate) m4: Panels,
    pub(crate) m5: Panels,
    pub(crate) m6: Panels,
    pub(crate) m7: Panels,
}

impl Factors {
    ghost use Rattle.tensor_kernels.specs.private.Strassen.{AreFirstFactors, AreSecondFactors};

    /// Returns the factors of the first operand.
    pub(crate) fn of_first(alloc: Global, rows: &Quarters) -> Result<Factors, AllocError>
        ensures { IfOk result (AreFirstFactors rows.now) }
    {
        let half = rows.half;
        let (a, b) = (
            rows.quarter(Quarter::FirstEarlier),
            rows.quarter(Quarter::FirstLater),
        );
        let (c, d) = (
            rows.quarter(Quarter::SecondEarlier),
            rows.quarter(Quarter::SecondLater),
        );
        Ok(Factors {
            m1: sum(alloc, half, a, d)?,
            m2: sum(alloc, half, c, d)?,
            m3: alone(alloc, half, a)?,
            m4: alone(alloc, half, d)?,
            m5: sum(alloc, half, a, b)?,
            m6: difference(alloc, half, c, a)?,
            m7: difference(alloc, half, b, d)?,
        })
    }

    /// Returns the factors of the second operand.
    pub(crate) fn of_second(alloc: Global, columns: &Quarters) -> Result<Factors, AllocError>
        ensures { IfOk result (AreSecondFactors columns.now) }
    {
        let half = columns.half;
        let a = columns.quarter(Quarter::FirstEarlier);
        let b = columns.quarter(Quarter::FirstLater);
        let c = columns.quarter(Quarter::SecondEarlier);
        let d = columns.quarter(Quarter::SecondLater);
        Ok(Factors {
            m1: sum(alloc, half, a, d)?,
            m2: alone(alloc, half, a)?,
            m3: difference(alloc, half, c, d)?,
            m4: difference(alloc, half, b, a)?,
            m5: alone(alloc, half, d)?,
            m6: sum(alloc, half, a, c)?,
            m7: sum(alloc, half, b, d)?,
        })
    }
}

/// Returns a copy of a quarter as a factor.
fn alone(alloc: Global, half: Half, x: &[i64]) -> Result<Panels, AllocError>
    requires len { length x.now ≡ half_size half }
    ensures { IfOk result (λ panels. IsFactor half panels (value_in x.now)) }
{
    let mut cells = Vec::with_capacity(alloc, x.len())?;
    cells.extend_from_slice(x)?;
    let panels = factor(alloc, half, cells)?;
    Ok(panels)
}

/// Returns the sum of two quarters as a factor.
fn sum(alloc: Global, half: Half, x: &[i64], y: &[i64]) -> Result<Panels, AllocError>
    requires len { length x.now ≡ half_size half }
    requires other { length y.now ≡ half_size half }
    ensures { IfOk result (λ panels. IsFactor half panels
        (λ p. value_in x.now p +ℤ value_in y.now p)) }
{
    let mut cells = Vec::with_capacity(alloc, x.len())?;
    for p in 0..x.len() {
        cells.push_reserved(plus(x[p], y[p]));
    }
    let panels = factor(alloc, half, cells)?;
    Ok(panels)
}

/// Returns the difference of two quarters as a factor.
fn difference(alloc: Global, half: Half, x: &[i64], y: &[i64]) -> Result<Panels, AllocError>
    requires len { length x.now ≡ half_size half }
    requires other { length y.now ≡ half_size half }
    ensures { IfOk result (λ panels. IsFactor half panels
        (λ p. value_in x.now p -ℤ value_in y.now p)) }
{
    let mut cells = Vec::with_capacity(alloc, x.len())?;
    for p in 0..x.len() {
        cells.push_reserved(minus(x[p], y[p]));
    }
    let panels = factor(alloc, half, cells)?;
    Ok(panels)
}

/// Returns a factor with the given cells, and with the sums of the products of each row's pairs.
fn factor(alloc: Global, half: Half, cells: Vec<i64>) -> Result<Panels, AllocError>
    requires { length cells.items ≡ half_size half }
    ensures { IfOk result (λ panels. IsFactor half panels (value_in cells.items)) }
{
    let sums = pair_sums(alloc, &cells, half.panels, half.height, 128)?;
    Ok(Panels { cells, sums })
}

/// Returns `x + y`, modulo 2^64.
#[inline(always)]
pub(crate) fn plus(x: i64, y: i64) -> i64
    ensures { result ≡ wrap (x +ℤ y) }
{
    x.wrapping_add(y)
}

/// Returns `x - y`, modulo 2^64.
#[inline(always)]
pub(crate) fn minus(x: i64, y: i64) -> i64
    ensures { result ≡ wrap (x -ℤ y) }
{
    x.wrapping_sub(y)
}
