// What the first two words of a text say: the format and the size.
ghost use Rattle.std.specs.Prelude.{◌≤◌};

use text_model::Precision;

#[derive(Clone, Copy)]
pub struct Head {
    pub precision: Precision,
    pub size: usize,
    ghost taken: { (1 ≤ size) × (size ≤ 128) },
}
