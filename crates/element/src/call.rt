// The call `multiply` of each element type, with what its answer is worth.
ghost use Rattle.std.specs.Prelude.{◌≡◌, true, map, length, is_ok, OnOk, ◌≢◌};
ghost use Rattle.element.specs.Multiply.{multiply_outcome, multiply_output};
ghost use Rattle.element.specs.Promises.{ProductSubtracted, ProductsSubtracted, ProductsNear};

use crate::multiply::multiply_matrix;
use crate::real::Real;
use crate::refusal::MultiplyRefusal;

// y becomes the matrix a of size n, row by row in one slice, times x. On a refusal y is left as it was.
pub trait Multiply: Real {
    fn multiply(n: usize, a: &[Self], x: &[Self], y: &mut [Self]) -> Result<(), MultiplyRefusal>
        ensures outcome { result ≡ multiply_outcome Self.Real.format n (map Self.Real.val a.now) (map Self.Real.val x.now) (length y.old) }
        ensures output { map Self.Real.val y.new ≡ multiply_output Self.Real.format n (map Self.Real.val a.now) (map Self.Real.val x.now) (map Self.Real.val y.old) }
        ensures kept { (is_ok result ≢ true) → y.new ≡ y.old }
        ensures near { OnOk result (ProductsNear Self.Real.format n (map Self.Real.val a.now) (map Self.Real.val x.now) (map Self.Real.val y.new)) };
}

impl<R: Real> Multiply for R {
    fn multiply(n: usize, a: &[R], x: &[R], y: &mut [R]) -> Result<(), MultiplyRefusal> {
        multiply_matrix(n, a, x, y)
    }
}

// One product subtracted, and a row of them: the inner step of the factoring and of both solves.
pub fn product_subtracted()
    ensures { ProductSubtracted }
{}

pub fn products_subtracted()
    ensures { ProductsSubtracted }
{}
