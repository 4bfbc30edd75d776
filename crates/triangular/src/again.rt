// The call `again`: the answer for another right side, with factors and an order that are there already.
ghost use Rattle.std.specs.Prelude.{◌≡◌, true, map, length, is_ok, OnOk, ◌≢◌};
ghost use Rattle.model.specs.Calls.{again_outcome, again_x};
ghost use Rattle.model.specs.Promises.{AgainBackwardStable};

use crate::checks::factors_sound;
use crate::factors::Factors;
use crate::order::Order;
use element::{Matrix, Real, check_inputs};
use model::AgainRefusal;

// x becomes the answer, which is found in the work row, so a refusal leaves x as it was.
pub fn again_with<R: Real>(
    n: usize,
    lu: &[R],
    order: &[u16],
    b: &[R],
    x: &mut [R],
    work: &mut [R],
) -> Result<(), AgainRefusal>
    requires { length work.old ≡ 128 }
    ensures outcome { result ≡ again_outcome R.Real.format n (map R.Real.val lu.now) order.now (map R.Real.val b.now) (length x.old) }
    ensures answer { map R.Real.val x.new ≡ again_x R.Real.format n (map R.Real.val lu.now) order.now (map R.Real.val b.now) (map R.Real.val x.old) }
    ensures kept { (is_ok result ≢ true) → x.new ≡ x.old }
    ensures stable { OnOk result (AgainBackwardStable R.Real.format n (map R.Real.val lu.now) order.now (map R.Real.val b.now) (map R.Real.val x.new)) }
{
    check_inputs(n, &[lu.len()], &[order.len(), b.len(), x.len()], &[b])?;
    if !factors_sound(n, lu, order) {
        return Err(AgainRefusal::Factors);
    }
    let factors = Factors::new(Matrix::new(n, lu), Order::new(order));
    let answer = &mut work[..n];
    factors.solve(b, answer)?;
    x.copy_from_slice(answer);
    Ok(())
}
