// The row permutation: in place i stands the given row that has the number in place i of a slice.
ghost use Rattle.std.specs.Prelude.{◌≡◌, ℕ, ◌<◌, length, slice_index};

// A view of an order in which each number is below the size.
#[derive(Clone, Copy)]
pub struct Order<'a> {
    places: &'a [u16],
    ghost below: { (k : ℕ) → k < length places.now → slice_index places.now k < length places.now },
}

impl<'a> Order<'a> {
    pub fn new(places: &'a [u16]) -> Order<'a>
        requires { (k : ℕ) → k < length places.now → slice_index places.now k < length places.now }
        ensures { result.places.now ≡ places.now }
    {
        Order { places }
    }

    // The given row that stands in place i.
    pub fn row(&self, i: usize) -> usize
        requires { i < length self.now.places.now }
        ensures value { result ≡ slice_index self.now.places.now i }
        ensures below { result < length self.now.places.now }
    {
        usize::from(self.places[i])
    }
}
