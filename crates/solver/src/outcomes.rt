// The calls `solve`, `factor` and `again` with the refusal itself for an answer, so that the column at which a factoring
// ended is known: what each leaves in every slice, and what an answer is worth.
ghost use Rattle.std.specs.Prelude.{◌≡◌, map, length, OnOk};
ghost use Rattle.model.specs.Calls.{factor_outcome, factor_lu, factor_order, solve_outcome, solve_lu, solve_order, solve_x, again_outcome, again_x};
ghost use Rattle.model.specs.Promises.{FactorsNear, PivotsBounded, SolveBackwardStable, AgainBackwardStable};

use crate::solve::solve_with;
use element::Real;
use factor::factor_matrix;
use model::{AgainRefusal, FactorRefusal, SolveRefusal};
use triangular::again_with;

// A work row is an array, since the numeric crates take no heap.
pub trait Outcomes: Real {
    // Factors, order and answer of the system a x = b.
    fn solve_outcome(
        n: usize,
        a: &[Self],
        b: &[Self],
        lu: &mut [Self],
        order: &mut [u16],
        x: &mut [Self],
    ) -> Result<(), SolveRefusal>
        ensures outcome { result ≡ solve_outcome Self.Real.format n (map Self.Real.val a.now) (map Self.Real.val b.now) (length lu.old) (length order.old) (length x.old) }
        ensures factors { map Self.Real.val lu.new ≡ solve_lu Self.Real.format n (map Self.Real.val a.now) (map Self.Real.val b.now) (map Self.Real.val lu.old) (length order.old) (length x.old) }
        ensures order { order.new ≡ solve_order Self.Real.format n (map Self.Real.val a.now) (map Self.Real.val b.now) (length lu.old) order.old (length x.old) }
        ensures answer { map Self.Real.val x.new ≡ solve_x Self.Real.format n (map Self.Real.val a.now) (map Self.Real.val b.now) (length lu.old) (length order.old) (map Self.Real.val x.old) }
        ensures stable { OnOk result (SolveBackwardStable Self.Real.format n (map Self.Real.val a.now) (map Self.Real.val b.now) (map Self.Real.val lu.new) order.new (map Self.Real.val x.new)) };

    // Factors and order of the matrix a.
    fn factor_outcome(
        n: usize,
        a: &[Self],
        lu: &mut [Self],
        order: &mut [u16],
    ) -> Result<(), FactorRefusal>
        ensures outcome { result ≡ factor_outcome Self.Real.format n (map Self.Real.val a.now) (length lu.old) (length order.old) }
        ensures factors { map Self.Real.val lu.new ≡ factor_lu Self.Real.format n (map Self.Real.val a.now) (map Self.Real.val lu.old) (length order.old) }
        ensures order { order.new ≡ factor_order Self.Real.format n (map Self.Real.val a.now) (length lu.old) order.old }
        ensures near { OnOk result (FactorsNear Self.Real.format n (map Self.Real.val a.now) (map Self.Real.val lu.new) order.new × PivotsBounded n (map Self.Real.val lu.new) order.new) };

    // The answer for another right side, with factors and an order that are there already.
    fn again_outcome(
        n: usize,
        lu: &[Self],
        order: &[u16],
        b: &[Self],
        x: &mut [Self],
    ) -> Result<(), AgainRefusal>
        ensures outcome { result ≡ again_outcome Self.Real.format n (map Self.Real.val lu.now) order.now (map Self.Real.val b.now) (length x.old) }
        ensures answer { map Self.Real.val x.new ≡ again_x Self.Real.format n (map Self.Real.val lu.now) order.now (map Self.Real.val b.now) (map Self.Real.val x.old) }
        ensures stable { OnOk result (AgainBackwardStable Self.Real.format n (map Self.Real.val lu.now) order.now (map Self.Real.val b.now) (map Self.Real.val x.new)) };
}

impl<R: Real> Outcomes for R {
    fn solve_outcome(
        n: usize,
        a: &[R],
        b: &[R],
        lu: &mut [R],
        order: &mut [u16],
        x: &mut [R],
    ) -> Result<(), SolveRefusal> {
        let mut work = [R::zero(); 128];
        solve_with(n, a, b, lu, order, x, &mut work)
    }

    fn factor_outcome(
        n: usize,
        a: &[R],
        lu: &mut [R],
        order: &mut [u16],
    ) -> Result<(), FactorRefusal> {
        factor_matrix(n, a, lu, order)
    }

    fn again_outcome(
        n: usize,
        lu: &[R],
        order: &[u16],
        b: &[R],
        x: &mut [R],
    ) -> Result<(), AgainRefusal> {
        let mut work = [R::zero(); 128];
        again_with(n, lu, order, b, x, &mut work)
    }
}
