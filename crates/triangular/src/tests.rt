// The call `again` in both formats, and each of its refusals. Each call has a work row of zeros.
use crate::again::again_with;
use element::InputRefusal;
use model::AgainRefusal;

// The factors of the rows 2 1 and 4 3, which are exchanged: the multiplier is 0.5.
const LU: [f64; 4] = [4.0, 3.0, 0.5, -0.5];

#[test]
fn answers(rt: HostRuntime) {
    let mut x = [0.0f64; 2];
    assert_eq!(rt;
        again_with(2, &LU, &[1, 0], &[3.0, 7.0], &mut x, &mut [0.0; 128]),
        Ok(())
    );
    assert_eq!(rt; x, [1.0, 1.0]);
    let mut x = [0.0f32; 2];
    assert_eq!(rt;
        again_with(
            2,
            &[4.0, 3.0, 0.5, -0.5],
            &[1, 0],
            &[3.0, 7.0],
            &mut x,
            &mut [0.0; 128],
        ),
        Ok(())
    );
    assert_eq!(rt; x, [1.0, 1.0]);
}

#[test]
fn input_refusals(rt: HostRuntime) {
    let mut x = [9.0f64; 2];
    let size = Err(AgainRefusal::Input(InputRefusal::Size));
    let length = Err(AgainRefusal::Input(InputRefusal::Length));
    let entry = Err(AgainRefusal::Input(InputRefusal::Entry));
    assert_eq!(rt;
        again_with(0, &LU, &[1, 0], &[3.0, 7.0], &mut x, &mut [0.0; 128]),
        size
    );
    assert_eq!(rt;
        again_with(2, &LU, &[1, 0], &[3.0], &mut x, &mut [0.0; 128]),
        length
    );
    // The right side is looked at before the order.
    assert_eq!(rt;
        again_with(2, &LU, &[0, 0], &[f64::NAN, 7.0], &mut x, &mut [0.0; 128]),
        entry
    );
    assert_eq!(rt; x, [9.0, 9.0]);
}

#[test]
fn factor_refusals(rt: HostRuntime) {
    let mut x = [9.0f64; 2];
    let infinite = [4.0, f64::INFINITY, 0.5, -0.5];
    let singular = [4.0, 3.0, 0.5, -0.0];
    assert_eq!(rt;
        again_with(2, &LU, &[0, 0], &[3.0, 7.0], &mut x, &mut [0.0; 128]),
        Err(AgainRefusal::Factors)
    );
    assert_eq!(rt;
        again_with(2, &LU, &[0, 2], &[3.0, 7.0], &mut x, &mut [0.0; 128]),
        Err(AgainRefusal::Factors)
    );
    assert_eq!(rt;
        again_with(2, &infinite, &[1, 0], &[3.0, 7.0], &mut x, &mut [0.0; 128]),
        Err(AgainRefusal::Factors)
    );
    assert_eq!(rt;
        again_with(2, &singular, &[1, 0], &[3.0, 7.0], &mut x, &mut [0.0; 128]),
        Err(AgainRefusal::Factors)
    );
    assert_eq!(rt; x, [9.0, 9.0]);
}

// 2^600 over 2^-600 is not finite, and 2^-100 over 2^100 is too small in binary32.
#[test]
fn range_refusals(rt: HostRuntime) {
    let mut x = [9.0f64; 1];
    let range = Err(AgainRefusal::Range);
    assert_eq!(rt;
        again_with(
            1,
            &[2.409919865102884e-181],
            &[0],
            &[4.149515568880993e180],
            &mut x,
            &mut [0.0; 128],
        ),
        range
    );
    assert_eq!(rt; x, [9.0]);
    let mut x = [9.0f32; 1];
    assert_eq!(rt;
        again_with(
            1,
            &[1.2676506e30],
            &[0],
            &[7.888609e-31],
            &mut x,
            &mut [0.0; 128],
        ),
        range
    );
    assert_eq!(rt; x, [9.0]);
}
