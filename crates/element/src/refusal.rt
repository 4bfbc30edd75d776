// Why a call has no answer.
ghost use Rattle.std.specs.Prelude.{◌≡◌, ℕ};
ghost use Rattle.element.specs.declared.refusal.MultiplyRefusal.TheVariants.{Input};
ghost use Rattle.element.specs.Refusals.{input_number, multiply_number, outcome_number};

// A refusal has a number, by which the calls of the library answer: the rules and C know a refusal by no more.
pub trait Numbered: Copy {
    ghost numbered: { Self → ℕ };

    fn number(self) -> u32
        ensures { result ≡ numbered self };
}

// 0, or the number of the refusal.
pub fn outcome_number<E: Numbered>(outcome: Result<(), E>) -> u32
    ensures { result ≡ outcome_number E.Numbered.numbered outcome }
{
    match outcome {
        Ok(()) => 0,
        Err(refusal) => refusal.number(),
    }
}

// What any call looks for before its work: the size is not 1 to 128; a slice is not as long as the size says; an entry
// is not finite.
#[derive(Clone, Copy, PartialEq, Eq, Debug)]
pub enum InputRefusal {
    Size,
    Length,
    Entry,
}

#[derive(Clone, Copy, PartialEq, Eq, Debug)]
pub enum MultiplyRefusal {
    Input(InputRefusal),
    // A product or a sum is not in range.
    Range,
}

impl Numbered for InputRefusal {
    ghost numbered = { input_number };

    fn number(self) -> u32 {
        match self {
            InputRefusal::Size => 1,
            InputRefusal::Length => 2,
            InputRefusal::Entry => 3,
        }
    }
}

impl Numbered for MultiplyRefusal {
    ghost numbered = { multiply_number };

    fn number(self) -> u32 {
        match self {
            MultiplyRefusal::Input(refusal) => refusal.number(),
            MultiplyRefusal::Range => 6,
        }
    }
}

// By hand, since a derived `From` has no `from_gives`, which clauses name.
impl From<InputRefusal> for MultiplyRefusal {
    ghost from_gives = { λ s r. r ≡ Input s };

    fn from(refusal: InputRefusal) -> MultiplyRefusal {
        MultiplyRefusal::Input(refusal)
    }
}
