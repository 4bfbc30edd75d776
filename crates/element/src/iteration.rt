// The rows of a matrix as an iterator.
ghost use Rattle.std.specs.Prelude.{◌≡◌, ◌+◌, ◌<◌, length, drop};
ghost use Rattle.std.specs.List.{All};
ghost use Rattle.std.specs.Iterator.{YieldsFirstRef, item_count};
ghost use Rattle.element.specs.Rows.{left, split_rows};

use crate::matrix::{Matrix, MatrixRows};

impl<'a, T> Matrix<'a, T> {
    pub fn rows(&self) -> MatrixRows<'a, T>
        ensures rows { left result ≡ split_rows self.now.size self.now.size self.now.entries.now }
        ensures len { All (λ row. length row ≡ self.now.size) (left result) }
    {
        MatrixRows {
            count: self.size,
            size: self.size,
            entries: self.entries,
        }
    }

    pub fn rows_below(&self, k: usize) -> MatrixRows<'a, T>
        requires { k < self.now.size }
        ensures rows { left result ≡ drop (k + 1) (split_rows self.now.size self.now.size self.now.entries.now) }
        ensures len { All (λ row. length row ≡ self.now.size) (left result) }
    {
        let (_, entries) = self.entries.split_at((k + 1) * self.size);
        MatrixRows {
            count: self.size - k - 1,
            size: self.size,
            entries,
        }
    }
}

impl<'a, T> Iterator for MatrixRows<'a, T> {
    type Item = &'a [T];

    ghost next_gives = { YieldsFirstRef left };

    ghost remaining = { item_count left };

    fn next(&mut self) -> Option<&'a [T]> {
        if self.count == 0 {
            return None;
        }
        let (row, entries) = self.entries.split_at(self.size);
        *self = MatrixRows {
            count: self.count - 1,
            size: self.size,
            entries,
        };
        Some(row)
    }
}
