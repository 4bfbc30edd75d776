// The four calls in both formats: the order in which refusals are looked for, and what each refusal leaves.
use crate::call::Solver;

// 2^600 and 2^-600; 2^64 and 2^-64.
const LARGE: f64 = 4.149515568880993e180;

const SMALL: f64 = 2.409919865102884e-181;

const LARGE32: f32 = 1.8446744e19;

const SMALL32: f32 = 5.421011e-20;

// The number, and what is left in the factors, the order and the answer, which held 7, 9 and 8.
fn solve<R: Solver + From<u8>>(n: usize, a: &[R], b: &[R]) -> (u32, [R; 4], [u16; 2], [R; 2]) {
    let mut lu = [R::from(7u8); 4];
    let mut order = [9u16; 2];
    let mut x = [R::from(8u8); 2];
    let number = R::solve(n, a, b, &mut lu, &mut order, &mut x);
    (number, lu, order, x)
}

// The number, and what is left in the answer, which held 8.
fn again<R: Solver + From<u8>>(n: usize, lu: &[R], order: &[u16], b: &[R]) -> (u32, [R; 2]) {
    let mut x = [R::from(8u8); 2];
    let number = R::again(n, lu, order, b, &mut x);
    (number, x)
}

#[test]
fn answers(rt: HostRuntime) {
    assert_eq!(rt;
        solve::<f64>(2, &[2.0, 1.0, 4.0, 3.0], &[3.0, 7.0]),
        (0, [4.0, 3.0, 0.5, -0.5], [1, 0], [1.0, 1.0])
    );
    assert_eq!(rt;
        solve::<f32>(2, &[2.0, 1.0, 4.0, 3.0], &[3.0, 7.0]),
        (0, [4.0, 3.0, 0.5, -0.5], [1, 0], [1.0, 1.0])
    );
    assert_eq!(rt;
        solve::<f64>(2, &[0.0, 1.0, -1.0, 0.0], &[2.0, 3.0]),
        (0, [-1.0, 0.0, -0.0, 1.0], [1, 0], [-3.0, 2.0])
    );
}

// Each system deserves a later number too; all three outputs are left as they were.
#[test]
fn inputs(rt: HostRuntime) {
    assert_eq!(rt;
        solve::<f64>(0, &[f64::NAN], &[]),
        (1, [7.0; 4], [9, 9], [8.0; 2])
    );
    assert_eq!(rt;
        solve::<f64>(129, &[f64::NAN], &[]),
        (1, [7.0; 4], [9, 9], [8.0; 2])
    );
    assert_eq!(rt;
        solve::<f64>(2, &[f64::NAN, 0.0, 0.0], &[1.0, 1.0]),
        (2, [7.0; 4], [9, 9], [8.0; 2])
    );
    assert_eq!(rt;
        solve::<f64>(2, &[0.0; 4], &[1.0, f64::INFINITY, 1.0]),
        (2, [7.0; 4], [9, 9], [8.0; 2])
    );
    assert_eq!(rt;
        solve::<f64>(2, &[0.0, 0.0, 0.0, f64::NAN], &[1.0, 1.0]),
        (3, [7.0; 4], [9, 9], [8.0; 2])
    );
    assert_eq!(rt;
        solve::<f64>(2, &[0.0; 4], &[1.0, f64::INFINITY]),
        (3, [7.0; 4], [9, 9], [8.0; 2])
    );
}

#[test]
fn inputs_of_binary32(rt: HostRuntime) {
    assert_eq!(rt;
        solve::<f32>(129, &[f32::NAN], &[]),
        (1, [7.0; 4], [9, 9], [8.0; 2])
    );
    assert_eq!(rt;
        solve::<f32>(2, &[f32::NAN; 4], &[1.0]),
        (2, [7.0; 4], [9, 9], [8.0; 2])
    );
    assert_eq!(rt;
        solve::<f32>(2, &[0.0; 4], &[1.0, f32::INFINITY]),
        (3, [7.0; 4], [9, 9], [8.0; 2])
    );
}

// A zero pivot, beside a right side that is out of range; the range of a column; the range of a triangular solve.
#[test]
fn work(rt: HostRuntime) {
    assert_eq!(rt;
        solve::<f64>(2, &[SMALL; 4], &[LARGE, 1.0]),
        (5, [SMALL, SMALL, 1.0, 0.0], [0, 1], [8.0; 2])
    );
    assert_eq!(rt;
        solve::<f64>(2, &[SMALL, 1.0, LARGE, 1.0], &[1.0, 1.0]),
        (6, [LARGE, 1.0, SMALL, 1.0], [1, 0], [8.0; 2])
    );
    assert_eq!(rt;
        solve::<f64>(2, &[1.0, 0.0, 0.0, SMALL], &[1.0, LARGE]),
        (6, [1.0, 0.0, 0.0, SMALL], [0, 1], [8.0; 2])
    );
    assert_eq!(rt;
        solve::<f32>(2, &[SMALL32; 4], &[LARGE32, 1.0]),
        (5, [SMALL32, SMALL32, 1.0, 0.0], [0, 1], [8.0; 2])
    );
    assert_eq!(rt;
        solve::<f32>(2, &[SMALL32, 1.0, LARGE32, 1.0], &[1.0, 1.0]),
        (6, [LARGE32, 1.0, SMALL32, 1.0], [1, 0], [8.0; 2])
    );
    assert_eq!(rt;
        solve::<f32>(2, &[1.0, 0.0, 0.0, SMALL32], &[1.0, LARGE32]),
        (6, [1.0, 0.0, 0.0, SMALL32], [0, 1], [8.0; 2])
    );
}

// `again`: 1, 2, 3, 4, 6, each beside later ones, and an answer. The last factors are what a refused factoring left.
#[test]
fn again_numbers(rt: HostRuntime) {
    let lu = [1.0, 0.0, 0.0, SMALL];
    assert_eq!(rt; again::<f64>(0, &lu, &[0, 0], &[1.0]), (1, [8.0; 2]));
    assert_eq!(rt; again::<f64>(2, &lu, &[0, 0], &[f64::NAN]), (2, [8.0; 2]));
    assert_eq!(rt;
        again::<f64>(2, &lu, &[0, 0], &[f64::NAN, LARGE]),
        (3, [8.0; 2])
    );
    assert_eq!(rt; again::<f64>(2, &lu, &[1, 1], &[1.0, LARGE]), (4, [8.0; 2]));
    assert_eq!(rt; again::<f64>(2, &lu, &[0, 1], &[1.0, LARGE]), (6, [8.0; 2]));
    assert_eq!(rt;
        again::<f64>(2, &lu, &[1, 0], &[SMALL, LARGE]),
        (0, [LARGE, 1.0])
    );
    assert_eq!(rt;
        again::<f64>(2, &[1.0, 1.0, 1.0, 0.0], &[0, 1], &[1.0, 1.0]),
        (4, [8.0; 2])
    );
}

#[test]
fn again_numbers_of_binary32(rt: HostRuntime) {
    let lu = [1.0, 0.0, 0.0, SMALL32];
    assert_eq!(rt;
        again::<f32>(2, &lu, &[0, 0], &[f32::NAN, LARGE32]),
        (3, [8.0; 2])
    );
    assert_eq!(rt;
        again::<f32>(2, &lu, &[1, 1], &[1.0, LARGE32]),
        (4, [8.0; 2])
    );
    assert_eq!(rt;
        again::<f32>(2, &lu, &[0, 1], &[1.0, LARGE32]),
        (6, [8.0; 2])
    );
    assert_eq!(rt;
        again::<f32>(2, &lu, &[1, 0], &[SMALL32, LARGE32]),
        (0, [LARGE32, 1.0])
    );
}

#[test]
fn factor_numbers(rt: HostRuntime) {
    let mut lu = [7.0f64; 4];
    let mut order = [9u16; 2];
    assert_eq!(rt; f64::factor(2, &[f64::NAN; 3], &mut lu, &mut order), 2);
    assert_eq!(rt;
        f64::factor(2, &[0.0, 0.0, 0.0, f64::NAN], &mut lu, &mut order),
        3
    );
    assert_eq!(rt; (lu, order), ([7.0; 4], [9, 9]));
    assert_eq!(rt; f64::factor(2, &[1.0; 4], &mut lu, &mut order), 5);
    assert_eq!(rt; (lu, order), ([1.0, 1.0, 1.0, 0.0], [0, 1]));
}

#[test]
fn multiply_numbers(rt: HostRuntime) {
    let mut y = [8.0f32; 2];
    assert_eq!(rt; f32::multiply(0, &[f32::NAN], &[], &mut y), 1);
    assert_eq!(rt; f32::multiply(2, &[f32::NAN], &[1.0, 1.0], &mut y), 2);
    assert_eq!(rt;
        f32::multiply(
            2,
            &[LARGE32, LARGE32, 1.0, f32::NAN],
            &[LARGE32, 1.0],
            &mut y,
        ),
        3
    );
    assert_eq!(rt;
        f32::multiply(2, &[1.0, 0.0, LARGE32, 0.0], &[LARGE32, 1.0], &mut y),
        6
    );
    assert_eq!(rt; y, [8.0; 2]);
    assert_eq!(rt;
        f32::multiply(2, &[1.0, 2.0, 3.0, 4.0], &[1.0, 1.0], &mut y),
        0
    );
    assert_eq!(rt; y, [3.0, 7.0]);
}
