// What every call looks for before its work.
ghost use Rattle.std.specs.Prelude.{◌≡◌, ◌*◌, true, ◌&&◌, T, map, OnOk, ◌==◌};
ghost use Rattle.std.specs.List.{All, list_all};
ghost use Rattle.element.specs.Matrix.{all_finite};
ghost use Rattle.element.specs.Promises.{all_fit};
ghost use Rattle.element.specs.Multiply.{inputs, size_taken};

use crate::real::Real;
use crate::refusal::InputRefusal;

// Whether every entry is finite.
pub fn all_finite<R: Real>(xs: &[R]) -> bool
    ensures value { result ≡ all_finite (map R.Real.val xs.now) }
    ensures fit { result ≡ true → T (all_fit R.Real.format (map R.Real.val xs.now)) }
{
    xs.iter().all(|x| x.is_finite())
}

// Whether each of the slices has finite entries only.
fn each_finite<R: Real>(numbers: &[&[R]]) -> bool
    ensures value { result ≡ list_all (λ xs. all_finite (map R.Real.val xs.now)) numbers.now }
    ensures fit { result ≡ true → All (λ xs. T (all_fit R.Real.format (map R.Real.val xs.now))) numbers.now }
{
    numbers.iter().all(|xs| all_finite(*xs))
}

// Whether each of the lengths is the expected one.
fn all_are(expected: usize, lengths: &[usize]) -> bool
    ensures { result ≡ list_all (λ l. l == expected) lengths.now }
{
    lengths.iter().all(|length| *length == expected)
}

// The size, then the lengths, then the entries: `squares` are the lengths of the slices that hold a matrix of size n, `rows`
// those of the slices that hold n entries, and `numbers` the slices whose entries have to be finite.
pub fn check_inputs<R: Real>(
    n: usize,
    squares: &[usize],
    rows: &[usize],
    numbers: &[&[R]],
) -> Result<(), InputRefusal>
    ensures outcome { result ≡ inputs (size_taken n) (list_all (λ l. l == n * n) squares.now && list_all (λ l. l == n) rows.now) (list_all (λ xs. all_finite (map R.Real.val xs.now)) numbers.now) }
    ensures fit { OnOk result (All (λ xs. T (all_fit R.Real.format (map R.Real.val xs.now))) numbers.now) }
{
    if !((1 <= n) & (n <= 128)) {
        return Err(InputRefusal::Size);
    }
    if !(all_are(n * n, squares) & all_are(n, rows)) {
        return Err(InputRefusal::Length);
    }
    if !each_finite(numbers) {
        return Err(InputRefusal::Entry);
    }
    Ok(())
}
