// The trait of the element types for which systems are solved: each call answers 0, or the number of its refusal, and says
// what it leaves in every slice. What an answer is worth is promised of the numbers that were worked out.
ghost use Rattle.std.specs.Prelude.{◌≡◌, map, length};
ghost use Rattle.element.specs.Refusals.{multiply_number, outcome_number};
ghost use Rattle.element.specs.Multiply.{multiply_outcome, multiply_output};
ghost use Rattle.element.specs.Promises.{ProductsNear};
ghost use Rattle.model.specs.Refusals.{factor_number, solve_number, again_number};
ghost use Rattle.model.specs.Calls.{factor_outcome, factor_lu, factor_order, solve_outcome, solve_lu, solve_order, solve_x, again_outcome, again_x};
ghost use Rattle.model.specs.Promises.{FactorsNear, PivotsBounded, SolveBackwardStable, AgainBackwardStable};

use crate::outcomes::Outcomes;
use element::{Multiply, Real, outcome_number};

// The answers are numbers, and no enums: the rules fix them, and `Outcomes` has the enums.
pub trait Solver: Real {
    // Factors, order and answer of the system a x = b.
    fn solve(
        n: usize,
        a: &[Self],
        b: &[Self],
        lu: &mut [Self],
        order: &mut [u16],
        x: &mut [Self],
    ) -> u32
        ensures number { result ≡ outcome_number solve_number (solve_outcome Self.Real.format n (map Self.Real.val a.now) (map Self.Real.val b.now) (length lu.old) (length order.old) (length x.old)) }
        ensures factors { map Self.Real.val lu.new ≡ solve_lu Self.Real.format n (map Self.Real.val a.now) (map Self.Real.val b.now) (map Self.Real.val lu.old) (length order.old) (length x.old) }
        ensures order { order.new ≡ solve_order Self.Real.format n (map Self.Real.val a.now) (map Self.Real.val b.now) (length lu.old) order.old (length x.old) }
        ensures answer { map Self.Real.val x.new ≡ solve_x Self.Real.format n (map Self.Real.val a.now) (map Self.Real.val b.now) (length lu.old) (length order.old) (map Self.Real.val x.old) }
        ensures stable { result ≡ 0 → SolveBackwardStable Self.Real.format n (map Self.Real.val a.now) (map Self.Real.val b.now) (map Self.Real.val lu.new) order.new (map Self.Real.val x.new) };

    // Factors and order of the matrix a.
    fn factor(n: usize, a: &[Self], lu: &mut [Self], order: &mut [u16]) -> u32
        ensures number { result ≡ outcome_number factor_number (factor_outcome Self.Real.format n (map Self.Real.val a.now) (length lu.old) (length order.old)) }
        ensures factors { map Self.Real.val lu.new ≡ factor_lu Self.Real.format n (map Self.Real.val a.now) (map Self.Real.val lu.old) (length order.old) }
        ensures order { order.new ≡ factor_order Self.Real.format n (map Self.Real.val a.now) (length lu.old) order.old }
        ensures near { result ≡ 0 → FactorsNear Self.Real.format n (map Self.Real.val a.now) (map Self.Real.val lu.new) order.new × PivotsBounded n (map Self.Real.val lu.new) order.new };

    // The answer for another right side, with factors and an order that are there already.
    fn again(n: usize, lu: &[Self], order: &[u16], b: &[Self], x: &mut [Self]) -> u32
        ensures number { result ≡ outcome_number again_number (again_outcome Self.Real.format n (map Self.Real.val lu.now) order.now (map Self.Real.val b.now) (length x.old)) }
        ensures answer { map Self.Real.val x.new ≡ again_x Self.Real.format n (map Self.Real.val lu.now) order.now (map Self.Real.val b.now) (map Self.Real.val x.old) }
        ensures stable { result ≡ 0 → AgainBackwardStable Self.Real.format n (map Self.Real.val lu.now) order.now (map Self.Real.val b.now) (map Self.Real.val x.new) };

    // The product of the matrix a and the vector x.
    fn multiply(n: usize, a: &[Self], x: &[Self], y: &mut [Self]) -> u32
        ensures number { result ≡ outcome_number multiply_number (multiply_outcome Self.Real.format n (map Self.Real.val a.now) (map Self.Real.val x.now) (length y.old)) }
        ensures output { map Self.Real.val y.new ≡ multiply_output Self.Real.format n (map Self.Real.val a.now) (map Self.Real.val x.now) (map Self.Real.val y.old) }
        ensures near { result ≡ 0 → ProductsNear Self.Real.format n (map Self.Real.val a.now) (map Self.Real.val x.now) (map Self.Real.val y.new) };
}

impl<R: Real> Solver for R {
    fn solve(n: usize, a: &[R], b: &[R], lu: &mut [R], order: &mut [u16], x: &mut [R]) -> u32 {
        outcome_number(<R as Outcomes>::solve_outcome(n, a, b, lu, order, x))
    }

    fn factor(n: usize, a: &[R], lu: &mut [R], order: &mut [u16]) -> u32 {
        outcome_number(<R as Outcomes>::factor_outcome(n, a, lu, order))
    }

    fn again(n: usize, lu: &[R], order: &[u16], b: &[R], x: &mut [R]) -> u32 {
        outcome_number(<R as Outcomes>::again_outcome(n, lu, order, b, x))
    }

    fn multiply(n: usize, a: &[R], x: &[R], y: &mut [R]) -> u32 {
        outcome_number(<R as Multiply>::multiply(n, a, x, y))
    }
}
