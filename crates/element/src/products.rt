// Rows of products, subtracted or summed from the left, each product and each difference or sum rounded once.
ghost use Rattle.std.specs.Prelude.{◌≡◌, ◌&&◌, map, length};
ghost use Rattle.std.specs.Float.Ieee.{mul};
ghost use Rattle.std.specs.Float.Ieee.Scale.{finite};
ghost use Rattle.exact.specs.Range.{product_in_range};
ghost use Rattle.element.specs.Products.{Gives, subtract_product, subtraction_in_range, subtract_products, subtractions_in_range, add_product, addition_in_range, sum_products, sum_in_range};

use crate::real::Real;

// What was made of the product of a and b. None if either is out of range.
fn in_range_with<R: Real>(a: R, b: R, product: R, made: R) -> Option<R>
    requires { R.Real.val product ≡ mul R.Real.format (R.Real.val a) (R.Real.val b) }
    ensures { Gives R.Real.val (product_in_range R.Real.format (R.Real.val a) (R.Real.val b) && finite (R.Real.val made)) (R.Real.val made) result }
{
    ((a.is_zero() | b.is_zero() | product.in_range()) & made.is_finite()).then_some(made)
}

// s - a b: the product rounded, then the difference. None if either is out of range. What the two functions have in
// common is `in_range_with`; what is left of each is one operator.
pub fn subtract_product<R: Real>(s: R, a: R, b: R) -> Option<R>
    ensures { Gives R.Real.val (subtraction_in_range R.Real.format (R.Real.val s) (R.Real.val a) (R.Real.val b)) (subtract_product R.Real.format (R.Real.val s) (R.Real.val a) (R.Real.val b)) result }
{
    let product = a.times(&b);
    in_range_with(a, b, product, s.minus(&product))
}

// s + a b: the product rounded, then the sum. None if either is out of range.
pub fn add_product<R: Real>(s: R, a: R, b: R) -> Option<R>
    ensures { Gives R.Real.val (addition_in_range R.Real.format (R.Real.val s) (R.Real.val a) (R.Real.val b)) (add_product R.Real.format (R.Real.val s) (R.Real.val a) (R.Real.val b)) result }
{
    let product = a.times(&b);
    in_range_with(a, b, product, s.plus(&product))
}

// s less the products of the entries of a and b, one after the other from the left. None if anything is out of range.
pub fn subtract_products<R: Real>(s: R, a: &[R], b: &[R]) -> Option<R>
    requires { length a.now ≡ length b.now }
    ensures { Gives R.Real.val (subtractions_in_range R.Real.format (R.Real.val s) (map R.Real.val a.now) (map R.Real.val b.now)) (subtract_products R.Real.format (R.Real.val s) (map R.Real.val a.now) (map R.Real.val b.now)) result }
{
    let mut rest = s;
    for (x, y) in a.iter().zip(b) {
        rest = subtract_product(rest, *x, *y)?;
    }
    Some(rest)
}

// The sum of the products of the entries of a and b, from the left, beginning with +0.
pub fn sum_products<R: Real>(a: &[R], b: &[R]) -> R
    requires { length a.now ≡ length b.now }
    ensures { R.Real.val result ≡ sum_products R.Real.format (map R.Real.val a.now) (map R.Real.val b.now) }
{
    let mut sum = R::zero();
    for (x, y) in a.iter().zip(b) {
        sum = sum.plus(&x.times(y));
    }
    sum
}

// Whether every product and every sum on the way to `sum_products` is in range.
pub fn sum_in_range<R: Real>(a: &[R], b: &[R]) -> bool
    requires { length a.now ≡ length b.now }
    ensures { result ≡ sum_in_range R.Real.format (map R.Real.val a.now) (map R.Real.val b.now) }
{
    let mut partial = R::zero();
    for (x, y) in a.iter().zip(b) {
        match add_product(partial, *x, *y) {
            Some(next) => partial = next,
            None => return false,
        }
    }
    true
}
