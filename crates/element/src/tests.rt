// The edges of in range, in both formats, through the call `multiply`.
ghost use Rattle.std.specs.Mem.{FitsInMemory};

use crate::call::Multiply;
use crate::refusal::{InputRefusal, MultiplyRefusal};

// 1 by 1: a times x, and what is left in an output that held 7. A slice of one R has to fit in memory.
fn product<R: Multiply + From<u8>>(a: R, x: R) -> (Result<(), MultiplyRefusal>, R)
    requires { FitsInMemory R.row }
{
    let mut y = [R::from(7u8)];
    let outcome = R::multiply(1, &[a], &[x], &mut y);
    (outcome, y[0])
}

#[test]
fn least_magnitude(rt: HostRuntime) {
    // 2^-500 times 2^-500 and 2^-500 times 2^-501
    assert_eq!(rt;
        product::<f64>(3.054936363499605e-151, 3.054936363499605e-151),
        (Ok(()), 9.332636185032189e-302)
    );
    assert_eq!(rt;
        product::<f64>(3.054936363499605e-151, 1.5274681817498023e-151),
        (Err(MultiplyRefusal::Range), 7.0)
    );
    // the value below 2^-1000, and both with the sign -
    assert_eq!(rt;
        product::<f64>(1.0, 9.332636185032188e-302),
        (Err(MultiplyRefusal::Range), 7.0)
    );
    assert_eq!(rt;
        product::<f64>(-1.0, 9.332636185032189e-302),
        (Ok(()), -9.332636185032189e-302)
    );
    assert_eq!(rt;
        product::<f64>(-1.0, 9.332636185032188e-302),
        (Err(MultiplyRefusal::Range), 7.0)
    );
    // 2^-55 times 2^-55, and the value below 2^-110
    assert_eq!(rt;
        product::<f32>(2.7755576e-17, 2.7755576e-17),
        (Ok(()), 7.70372e-34)
    );
    assert_eq!(rt;
        product::<f32>(1.0, 7.7037193e-34),
        (Err(MultiplyRefusal::Range), 7.0)
    );
}

#[test]
fn zero_operands(rt: HostRuntime) {
    // either operand, of either sign, beside any magnitude; the sum begins with +0, so that its reciprocal is +infinity
    assert_eq!(rt; product::<f64>(0.0, 5e-324), (Ok(()), 0.0));
    assert_eq!(rt;
        1.0 / product::<f64>(-1.7976931348623157e308, 0.0).1,
        f64::INFINITY
    );
    assert_eq!(rt; 1.0 / product::<f32>(1e-45, -0.0).1, f32::INFINITY);
}

#[test]
fn overflow(rt: HostRuntime) {
    assert_eq!(rt;
        product::<f64>(1e200, 1e200),
        (Err(MultiplyRefusal::Range), 7.0)
    );
    assert_eq!(rt;
        product::<f32>(1e30, 1e30),
        (Err(MultiplyRefusal::Range), 7.0)
    );
    // products of both signs that overflow, and one before a product of 0
    let mut y = [7.0f64; 2];
    assert_eq!(rt;
        f64::multiply(2, &[1e200, -1e200, 1.0, 1.0], &[1e200, 1e200], &mut y),
        Err(MultiplyRefusal::Range)
    );
    assert_eq!(rt;
        f64::multiply(2, &[1.0, 1.0, 1e200, 0.0], &[1e200, 1.0], &mut y),
        Err(MultiplyRefusal::Range)
    );
    assert_eq!(rt; y, [7.0, 7.0]);
}

#[test]
fn order_of_refusals(rt: HostRuntime) {
    let mut y = [7.0f64; 2];
    assert_eq!(rt;
        f64::multiply(0, &[f64::NAN], &[], &mut y),
        Err(MultiplyRefusal::Input(InputRefusal::Size))
    );
    assert_eq!(rt;
        f64::multiply(129, &[], &[], &mut y),
        Err(MultiplyRefusal::Input(InputRefusal::Size))
    );
    assert_eq!(rt;
        f64::multiply(1, &[f64::NAN], &[1.0], &mut y),
        Err(MultiplyRefusal::Input(InputRefusal::Length))
    );
    assert_eq!(rt;
        f64::multiply(2, &[f64::NAN, 1.0, 1.0, 1e300], &[1e300, 1.0], &mut y),
        Err(MultiplyRefusal::Input(InputRefusal::Entry))
    );
    assert_eq!(rt; y, [7.0, 7.0]);
}
