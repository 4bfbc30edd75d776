// What `solve` and `factor` leave in outputs that held 8, beside the tests of the calls, where they held 7, 9 and 8.
use solver::Solver;

// The number, and what is left in the factors, in the order, which held 9, and in the answer.
fn solve<R: Solver>(n: usize, a: &[R], b: &[R], held: R) -> (u32, [R; 4], [u16; 2], [R; 2]) {
    let mut lu = [held; 4];
    let mut order = [9u16; 2];
    let mut x = [held; 2];
    let number = R::solve(n, a, b, &mut lu, &mut order, &mut x);
    (number, lu, order, x)
}

// Each system deserves a later number too; all three outputs are left as they were.
#[test]
fn inputs(rt: HostRuntime) {
    assert_eq!(rt;
        solve::<f64>(0, &[f64::NAN], &[], 8.0),
        (1, [8.0; 4], [9, 9], [8.0; 2])
    );
    assert_eq!(rt;
        solve::<f64>(129, &[f64::NAN], &[], 8.0),
        (1, [8.0; 4], [9, 9], [8.0; 2])
    );
    assert_eq!(rt;
        solve::<f64>(2, &[f64::NAN, 0.0, 0.0], &[1.0, 1.0], 8.0),
        (2, [8.0; 4], [9, 9], [8.0; 2])
    );
    assert_eq!(rt;
        solve::<f64>(2, &[0.0; 4], &[1.0, f64::INFINITY, 1.0], 8.0),
        (2, [8.0; 4], [9, 9], [8.0; 2])
    );
    assert_eq!(rt;
        solve::<f64>(2, &[0.0, 0.0, 0.0, f64::NAN], &[1.0, 1.0], 8.0),
        (3, [8.0; 4], [9, 9], [8.0; 2])
    );
    assert_eq!(rt;
        solve::<f64>(2, &[0.0; 4], &[1.0, f64::INFINITY], 8.0),
        (3, [8.0; 4], [9, 9], [8.0; 2])
    );
}

#[test]
fn inputs_of_binary32(rt: HostRuntime) {
    assert_eq!(rt;
        solve::<f32>(129, &[f32::NAN], &[], 8.0),
        (1, [8.0; 4], [9, 9], [8.0; 2])
    );
    assert_eq!(rt;
        solve::<f32>(2, &[f32::NAN; 4], &[1.0], 8.0),
        (2, [8.0; 4], [9, 9], [8.0; 2])
    );
    assert_eq!(rt;
        solve::<f32>(2, &[0.0; 4], &[1.0, f32::INFINITY], 8.0),
        (3, [8.0; 4], [9, 9], [8.0; 2])
    );
}

#[test]
fn factor_numbers(rt: HostRuntime) {
    let mut lu = [8.0f64; 4];
    let mut order = [9u16; 2];
    assert_eq!(rt; f64::factor(2, &[f64::NAN; 3], &mut lu, &mut order), 2);
    assert_eq!(rt;
        f64::factor(2, &[0.0, 0.0, 0.0, f64::NAN], &mut lu, &mut order),
        3
    );
    assert_eq!(rt; (lu, order), ([8.0; 4], [9, 9]));
    assert_eq!(rt; f64::factor(2, &[1.0; 4], &mut lu, &mut order), 5);
    assert_eq!(rt; (lu, order), ([1.0, 1.0, 1.0, 0.0], [0, 1]));
}
