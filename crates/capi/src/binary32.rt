// The calls in binary32. C has no generic functions, so each format has functions of names of its own.
ghost use Rattle.std.specs.Float.{binary32};
ghost use Rattle.capi.specs.Calls.{SolveCall, FactorCall, AgainCall, MultiplyCall};

use crate::column::report;
use solver::{Outcomes, Solver};

// Factors, order and answer of the system a x = b.
#[unsafe(no_mangle)]
pub extern "C" fn nardlintel_solve_f32(
    n: usize,
    a: &[f32],
    b: &[f32],
    lu: &mut [f32],
    order: &mut [u16],
    x: &mut [f32],
    column: &mut usize,
) -> u32
    ensures { SolveCall binary32 n a.now b.now lu.old order.old x.old column.old result lu.new order.new x.new column.new }
{
    report(f32::solve_outcome(n, a, b, lu, order, x), n, column)
}

// Factors and order of the matrix a.
#[unsafe(no_mangle)]
pub extern "C" fn nardlintel_factor_f32(
    n: usize,
    a: &[f32],
    lu: &mut [f32],
    order: &mut [u16],
    column: &mut usize,
) -> u32
    ensures { FactorCall binary32 n a.now lu.old order.old column.old result lu.new order.new column.new }
{
    report(f32::factor_outcome(n, a, lu, order), n, column)
}

// The answer for another right side, with factors and an order that are there already.
#[unsafe(no_mangle)]
pub extern "C" fn nardlintel_again_f32(
    n: usize,
    lu: &[f32],
    order: &[u16],
    b: &[f32],
    x: &mut [f32],
    column: &mut usize,
) -> u32
    ensures { AgainCall binary32 n lu.now order.now b.now x.old column.old result x.new column.new }
{
    report(f32::again_outcome(n, lu, order, b, x), n, column)
}

// The product of the matrix a and the vector x.
#[unsafe(no_mangle)]
pub extern "C" fn nardlintel_multiply_f32(n: usize, a: &[f32], x: &[f32], y: &mut [f32]) -> u32
    ensures { MultiplyCall binary32 n a.now x.now y.old result y.new }
{
    <f32 as Solver>::multiply(n, a, x, y)
}
