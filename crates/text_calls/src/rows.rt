// The matrix and the right side of a system, out of its rows.
ghost use Rattle.std.specs.Prelude.{◌≡◌, ◌*◌, map, IfOk, vec_len};
ghost use Rattle.text_model.specs.Systems.{coefficients, right_side};

use element::Real;
use std::alloc::{AllocError, Global};
use system_text::SystemText;

// The entries of the rows without the last of each.
pub fn matrix_of<R: Real>(heap: Global, system: &SystemText<R>) -> Result<Vec<R>, AllocError>
    ensures { IfOk result (λ v. (map R.Real.val v.items ≡ coefficients system.now.size system.now.size (map R.Real.val system.now.entries.items)) × (vec_len v ≡ system.now.size * system.now.size)) }
{
    let n = system.size;
    let mut matrix = Vec::new(heap);
    for row in system.entries.chunks_exact(n + 1) {
        matrix.extend_from_slice(&row[..n])?;
    }
    Ok(matrix)
}

// The last entry of each row.
pub fn right_side_of<R: Real>(heap: Global, system: &SystemText<R>) -> Result<Vec<R>, AllocError>
    ensures { IfOk result (λ v. (map R.Real.val v.items ≡ right_side system.now.size system.now.size (map R.Real.val system.now.entries.items)) × (vec_len v ≡ system.now.size)) }
{
    let n = system.size;
    let mut right_side = Vec::new(heap);
    for row in system.entries.chunks_exact(n + 1) {
        right_side.push(row[n])?;
    }
    Ok(right_side)
}
