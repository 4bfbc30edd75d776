// A factoring on its way: a matrix that lies row by row in one slice, and the order of its rows.
ghost use Rattle.std.specs.Prelude.{◌≡◌, ℕ, ◌*◌, ◌<◌, ◌≤◌, length, slice_index};

use crate::eliminate::eliminate_from_row;
use crate::exchange::swap_rows;
use crate::pivot::find_pivot;
use element::{Matrix, Real};

// Both lie in slices lent for them. Place i of the order holds the number of the given row that stands there.
#[derive(Drop)]
pub struct Factoring<'a, R> {
    size: usize,
    entries: &'a mut [R],
    order: &'a mut [u16],
    ghost square: { (size ≤ 128) × (length entries.now ≡ size * size) },
    ghost places: { length order.now ≡ size },
    ghost below: { (i : ℕ) → i < size → slice_index order.now i < size },
}

// That k is below the size stays a clause of each method: it is a fact about that argument alone.
impl<'a, R: Real> Factoring<'a, R> {
    ghost use Rattle.std.specs.Prelude.{Ok};
    ghost use Rattle.element.specs.Matrix.{at, row};
    ghost use Rattle.model.specs.Factor.{up_to, exchange};
    ghost use Rattle.factor.specs.Slices.{matrix_of};
    ghost use Rattle.factor.specs.State.{state, SameSlices, eliminated};

    // The matrix a, each row in its own place.
    #[tactic(auto, using(crate::proofs::UpTo::writes))]
    pub fn begin(size: usize, a: &[R], lu: &'a mut [R], order: &'a mut [u16]) -> Factoring<'a, R>
        requires size { size ≤ 128 }
        requires matrix { length a.now ≡ size * size }
        requires factors { length lu.old ≡ size * size }
        requires places { length order.old ≡ size }
        ensures size { result.size ≡ size }
        ensures entries { result.entries.now ≡ a.now }
        ensures order { result.order.now ≡ up_to size }
        ensures lends_entries { result.entries.ghost_name ≡ lu.entry.ghost_name }
        ensures lends_order { result.order.ghost_name ≡ order.entry.ghost_name }
    {
        lu.copy_from_slice(a);
        for (i, place) in order.iter_mut().enumerate() {
            // `as`, since it is proved to lose nothing; `TryFrom` would add a failure that never comes.
            *place = i as u16;
        }
        Factoring {
            size,
            entries: lu,
            order,
        }
    }

    pub fn size(&self) -> usize
        ensures { result ≡ self.now.size }
    {
        self.size
    }

    // The matrix, for what only reads it.
    pub fn matrix(&self) -> Matrix<'_, R>
        ensures size { result.size ≡ self.now.size }
        ensures entries { result.entries.now ≡ self.now.entries.now }
    {
        Matrix::new(self.size, &self.entries[..])
    }

    // Entry k of row k.
    #[tactic(auto, using(crate::proofs::Flat::taken))]
    pub fn pivot(&self, k: usize) -> R
        requires { k < self.now.size }
        ensures { R.Real.val result ≡ at (row (matrix_of R.Real.val self.now.size self.now.entries.now) k) k }
    {
        self.matrix().row(k)[k]
    }

    // The pivot's row of column k changes places with row k: whole, and in the order.
    #[tactic(auto, using(crate::proofs::Flat::exchanged))]
    pub fn exchange(&mut self, k: usize)
        requires { k < self.old.size }
        ensures exchanged { state R.Real.val self.new (Ok tt) ≡ exchange k (state R.Real.val self.old (Ok tt)) }
        ensures lends { SameSlices self.old self.new }
    {
        let p = find_pivot(&self.matrix(), k);
        swap_rows(self.size, self.entries, k, p);
        self.order.swap(k, p);
    }

    // Eliminates column k from each row below row k.
    pub fn eliminate_rows(&mut self, k: usize)
        requires { k < self.old.size }
        ensures eliminated { state R.Real.val self.new (Ok tt) ≡ eliminated R.Real.format k (state R.Real.val self.old (Ok tt)) }
        ensures lends { SameSlices self.old self.new }
    {
        // By number: of chunks of a slice a proof knows only the length once the loan is over.
        for i in k + 1..self.size {
            eliminate_from_row(self.size, self.entries, k, i);
        }
    }
}
