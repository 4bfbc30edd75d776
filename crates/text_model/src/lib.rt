// What texts of systems and of factors say, and what the programs print, as definitions; and the theorems about them.
#![tactic(auto)]

ghost use Rattle.std.specs.Prelude.{◌≡◌, Some};
ghost use Rattle.text_model.specs.declared.TextRefusal.TheVariants as text;
ghost use Rattle.text_model.specs.Refusals.{solve_refusal, again_refusal, detail};
ghost use Rattle.text_model.specs.Promises.{FactorsReadBack, AgainAsSolvePrinted, PrintedAnswersStable};

use element::Numbered;
use model::{AgainRefusal, FactorRefusal, SolveRefusal};
use number_text::NumberRefusal;
use std::alloc::{AllocError, AllocFailed};
use std::fmt;

// The format that a text is in: binary64 or binary32.
#[derive(Clone, Copy, PartialEq, Eq, Debug)]
pub enum Precision {
    Double,
    Single,
}

// Why a program has no answer for a text.
#[derive(Clone, Copy, PartialEq, Eq, Debug)]
pub enum TextRefusal {
    // The text is too long, or the size is not 1 to 128.
    Size,
    // The text has no known form, or a word is no number.
    Form,
    // There are too few numbers, or too many.
    Count,
    // The factors are such as no factoring leaves.
    Factors,
    // The factoring ended at a column.
    Factoring(FactorRefusal),
    // Something in the triangular solves is out of range.
    Solving,
    // There is no memory.
    Memory,
}

// What a program prints of a refusal: its number, and the column at which a factoring ended or `solving`. Want of memory
// is no refusal of a text, and has none.
impl fmt::Display for TextRefusal {
    ghost output = { λ r. Some (detail r) };

    fn fmt<W: fmt::Write>(&self, f: &mut fmt::Formatter<W>) -> fmt::Result {
        match *self {
            // Numbers by hand, those of refusals of texts, and of a column: by `Numbered` and one arm the proof stays open.
            TextRefusal::Size => write!(f, "1"),
            TextRefusal::Form => write!(f, "7"),
            TextRefusal::Count => write!(f, "8"),
            TextRefusal::Factors => write!(f, "4"),
            TextRefusal::Factoring(FactorRefusal::Input(refusal)) => {
                write!(f, "{}", refusal.number())
            }
            TextRefusal::Factoring(FactorRefusal::Pivot(column)) => write!(f, "5 {column}"),
            TextRefusal::Factoring(FactorRefusal::Range(column)) => write!(f, "6 {column}"),
            TextRefusal::Solving => write!(f, "6 solving"),
            TextRefusal::Memory => Ok(()),
        }
    }
}

// By hand, as those below: a derived `From` has no `from_gives`, which clauses name.
impl From<SolveRefusal> for TextRefusal {
    ghost from_gives = { λ s r. r ≡ solve_refusal s };

    fn from(refusal: SolveRefusal) -> TextRefusal {
        match refusal {
            SolveRefusal::Factoring(refusal) => TextRefusal::Factoring(refusal),
            SolveRefusal::Range => TextRefusal::Solving,
        }
    }
}

impl From<FactorRefusal> for TextRefusal {
    ghost from_gives = { λ s r. r ≡ text.Factoring s };

    fn from(refusal: FactorRefusal) -> TextRefusal {
        TextRefusal::Factoring(refusal)
    }
}

impl From<AgainRefusal> for TextRefusal {
    ghost from_gives = { λ s r. r ≡ again_refusal s };

    fn from(refusal: AgainRefusal) -> TextRefusal {
        match refusal {
            AgainRefusal::Input(refusal) => TextRefusal::Factoring(FactorRefusal::Input(refusal)),
            AgainRefusal::Factors => TextRefusal::Factors,
            AgainRefusal::Range => TextRefusal::Solving,
        }
    }
}

impl From<NumberRefusal> for TextRefusal {
    ghost from_gives = { λ _ r. r ≡ text.Form };

    fn from(_refusal: NumberRefusal) -> TextRefusal {
        TextRefusal::Form
    }
}

impl From<AllocError> for TextRefusal {
    ghost from_gives = { λ _ r. r ≡ text.Memory };

    fn from(_error: AllocError) -> TextRefusal {
        TextRefusal::Memory
    }
}

impl<T: Drop> From<AllocFailed<T>> for TextRefusal {
    ghost from_gives = { λ _ r. r ≡ text.Memory };

    fn from(_refused: AllocFailed<T>) -> TextRefusal {
        TextRefusal::Memory
    }
}

// The theorems: each function returns nothing and promises, by its contract, a statement of specs/.

// Factors are read back as they were printed, whatever text follows them.
pub fn factors_are_read_back()
    ensures { FactorsReadBack }
{}

// On the printed factors of a system and its right side, `again` prints what `solve` prints.
pub fn again_prints_as_solve()
    ensures { AgainAsSolvePrinted }
{}

// A printed answer, read back, solves exactly a nearby system.
pub fn printed_answers_are_stable()
    ensures { PrintedAnswersStable }
{}
