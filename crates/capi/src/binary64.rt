// The calls in binary64. C has no generic functions, so each format has functions of names of its own.
ghost use Rattle.std.specs.Float.{binary64};
ghost use Rattle.capi.specs.Calls.{SolveCall, FactorCall, AgainCall, MultiplyCall};

use crate::column::report;
use solver::{Outcomes, Solver};

// Factors, order and answer of the system a x = b.
#[unsafe(no_mangle)]
pub extern "C" fn nardlintel_solve_f64(
    n: usize,
    a: &[f64],
    b: &[f64],
    lu: &mut [f64],
    order: &mut [u16],
    x: &mut [f64],
    column: &mut usize,
) -> u32
    ensures { SolveCall binary64 n a.now b.now lu.old order.old x.old column.old result lu.new order.new x.new column.new }
{
    report(f64::solve_outcome(n, a, b, lu, order, x), n, column)
}

// Factors and order of the matrix a.
#[unsafe(no_mangle)]
pub extern "C" fn nardlintel_factor_f64(
    n: usize,
    a: &[f64],
    lu: &mut [f64],
    order: &mut [u16],
    column: &mut usize,
) -> u32
    ensures { FactorCall binary64 n a.now lu.old order.old column.old result lu.new order.new column.new }
{
    report(f64::factor_outcome(n, a, lu, order), n, column)
}

// The answer for another right side, with factors and an order that are there already.
#[unsafe(no_mangle)]
pub extern "C" fn nardlintel_again_f64(
    n: usize,
    lu: &[f64],
    order: &[u16],
    b: &[f64],
    x: &mut [f64],
    column: &mut usize,
) -> u32
    ensures { AgainCall binary64 n lu.now order.now b.now x.old column.old result x.new column.new }
{
    report(f64::again_outcome(n, lu, order, b, x), n, column)
}

// The product of the matrix a and the vector x.
#[unsafe(no_mangle)]
pub extern "C" fn nardlintel_multiply_f64(n: usize, a: &[f64], x: &[f64], y: &mut [f64]) -> u32
    ensures { MultiplyCall binary64 n a.now x.now y.old result y.new }
{
    <f64 as Solver>::multiply(n, a, x, y)
}
