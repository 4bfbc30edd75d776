// The call `factor` of 2 by 2 matrices in both formats: the factors, the order, and each refusal.
use crate::factor::factor_matrix;
use element::{InputRefusal, Real};
use model::FactorRefusal;

// The outcome, and what is left in the factors and the order, which held 7 and 9.
fn factored<R: Real + From<u8>>(a: [R; 4]) -> (Result<(), FactorRefusal>, [R; 4], [u16; 2]) {
    let mut lu = [R::from(7u8); 4];
    let mut order = [9u16; 2];
    let outcome = factor_matrix(2, &a, &mut lu, &mut order);
    (outcome, lu, order)
}

#[test]
fn factors(rt: HostRuntime) {
    assert_eq!(rt;
        factored::<f64>([2.0, 1.0, 4.0, 3.0]),
        (Ok(()), [4.0, 3.0, 0.5, -0.5], [1, 0])
    );
    assert_eq!(rt;
        factored::<f64>([0.0, 1.0, -1.0, 0.0]),
        (Ok(()), [-1.0, 0.0, -0.0, 1.0], [1, 0])
    );
    assert_eq!(rt;
        factored::<f32>([2.0, 1.0, 4.0, 3.0]),
        (Ok(()), [4.0, 3.0, 0.5, -0.5], [1, 0])
    );
}

#[test]
fn first_of_equal_magnitudes(rt: HostRuntime) {
    assert_eq!(rt;
        factored::<f64>([1.0, 1.0, -1.0, 1.0]),
        (Ok(()), [1.0, 1.0, -1.0, 2.0], [0, 1])
    );
    assert_eq!(rt;
        factored::<f32>([1.0, 1.0, -1.0, 1.0]),
        (Ok(()), [1.0, 1.0, -1.0, 2.0], [0, 1])
    );
}

#[test]
fn zero_pivots(rt: HostRuntime) {
    assert_eq!(rt;
        factored::<f64>([1.0; 4]),
        (Err(FactorRefusal::Pivot(1)), [1.0, 1.0, 1.0, 0.0], [0, 1])
    );
    assert_eq!(rt;
        factored::<f64>([-0.0; 4]),
        (Err(FactorRefusal::Pivot(0)), [0.0; 4], [0, 1])
    );
    assert_eq!(rt;
        factored::<f32>([0.0; 4]),
        (Err(FactorRefusal::Pivot(0)), [0.0; 4], [0, 1])
    );
}

// The multiplier is 2^-1001 or 2^-111. The rows stay as after the exchange.
#[test]
fn out_of_range(rt: HostRuntime) {
    let tiny = 4.6663180925160944e-302;
    assert_eq!(rt;
        factored::<f64>([tiny, 1.0, 1.0, 1.0]),
        (Err(FactorRefusal::Range(0)), [1.0, 1.0, tiny, 1.0], [1, 0])
    );
    let tiny = 3.85186e-34;
    assert_eq!(rt;
        factored::<f32>([tiny, 1.0, 1.0, 1.0]),
        (Err(FactorRefusal::Range(0)), [1.0, 1.0, tiny, 1.0], [1, 0])
    );
}

// The multiplier is 2^-600 or 2^-60: below the threshold, but everything is in range.
#[test]
fn below_threshold(rt: HostRuntime) {
    let small = 2.409919865102884e-181;
    assert_eq!(rt;
        factored::<f64>([small, 1.0, 1.0, 1.0]),
        (Ok(()), [1.0, 1.0, small, 1.0], [1, 0])
    );
    let small = 8.673617379884035e-19;
    assert_eq!(rt;
        factored::<f32>([small, 1.0, 1.0, 1.0]),
        (Ok(()), [1.0, 1.0, small, 1.0], [1, 0])
    );
}

#[test]
fn inputs(rt: HostRuntime) {
    let mut lu = [7.0f64; 4];
    let mut order = [9u16; 2];
    let size = Err(FactorRefusal::Input(InputRefusal::Size));
    let length = Err(FactorRefusal::Input(InputRefusal::Length));
    assert_eq!(rt; factor_matrix(129, &[f64::NAN], &mut lu, &mut order), size);
    assert_eq!(rt; factor_matrix(2, &[f64::NAN], &mut lu, &mut order), length);
    assert_eq!(rt; lu, [7.0; 4]);
    assert_eq!(rt; order, [9, 9]);
    assert_eq!(rt;
        factored::<f64>([1.0, 1.0, f64::NAN, 1.0]),
        (
            Err(FactorRefusal::Input(InputRefusal::Entry)),
            [7.0; 4],
            [9, 9],
        )
    );
}
