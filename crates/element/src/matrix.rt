// A square matrix that lies row by row in one slice, and its rows, one after the other.
ghost use Rattle.std.specs.Prelude.{◌≡◌, ◌*◌, ◌<◌, ◌≤◌, length, take, drop};

// A view of a slice as a matrix with so many rows of as many entries.
#[derive(Drop)]
pub struct Matrix<'a, T> {
    pub(crate) size: usize,
    pub(crate) entries: &'a [T],
    ghost square: { (size ≤ 128) × (length entries.now ≡ size * size) },
}

// The rows that are left, from one of them on: so many of as many entries.
#[derive(Drop)]
pub struct MatrixRows<'a, T> {
    pub(crate) count: usize,
    pub(crate) size: usize,
    pub(crate) entries: &'a [T],
    ghost whole: { length entries.now ≡ count * size },
}

impl<'a, T> Matrix<'a, T> {
    pub fn new(size: usize, entries: &'a [T]) -> Matrix<'a, T>
        requires size { size ≤ 128 }
        requires square { length entries.now ≡ size * size }
        ensures size { result.size ≡ size }
        ensures entries { result.entries.now ≡ entries.now }
    {
        Matrix { size, entries }
    }

    pub fn size(&self) -> usize
        ensures value { result ≡ self.now.size }
        ensures bound { result ≤ 128 }
    {
        self.size
    }

    // All entries, row by row.
    pub fn entries(&self) -> &'a [T]
        ensures value { result.now ≡ self.now.entries.now }
        ensures len { length result.now ≡ self.now.size * self.now.size }
    {
        self.entries
    }

    pub fn row(&self, i: usize) -> &'a [T]
        requires { i < self.now.size }
        ensures entries { result.now ≡ take self.now.size (drop (i * self.now.size) self.now.entries.now) }
        ensures len { length result.now ≡ self.now.size }
    {
        &self.entries[i * self.size..i * self.size + self.size]
    }
}
