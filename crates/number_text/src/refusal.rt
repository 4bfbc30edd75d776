// Why a word has no value, and why a value has no text.
ghost use Rattle.std.specs.Prelude.{◌≡◌};
ghost use Rattle.number_text.specs.declared.refusal.PrintRefusal.TheVariants.{Memory};
ghost use Rattle.number_text.specs.Number.{refusal_number};

use element::Numbered;
use std::alloc::AllocError;

#[derive(Clone, Copy, PartialEq, Eq, Debug)]
pub enum NumberRefusal {
    // The word has neither form, or is the exact text of what is no value of the format.
    NotANumber,
}

impl Numbered for NumberRefusal {
    ghost numbered = { refusal_number };

    fn number(self) -> u32 {
        match self {
            NumberRefusal::NotANumber => 7,
        }
    }
}

// Why a value was not printed: it is not finite, or there is no memory for its text.
#[derive(Clone, Copy, PartialEq, Eq, Debug)]
pub enum PrintRefusal {
    NotFinite,
    Memory,
}

// By hand, since a derived `From` has no `from_gives`, which clauses name.
impl From<AllocError> for PrintRefusal {
    ghost from_gives = { λ _ r. r ≡ Memory };

    fn from(_error: AllocError) -> PrintRefusal {
        PrintRefusal::Memory
    }
}
