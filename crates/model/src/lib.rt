// What the calls compute, as definitions; what is promised of it; and the theorems.
#![tactic(auto)]

ghost use Rattle.std.specs.Prelude.{◌≡◌};
ghost use Rattle.model.specs.declared.FactorRefusal.TheVariants as factoring;
ghost use Rattle.model.specs.declared.SolveRefusal.TheVariants as solving;
ghost use Rattle.model.specs.declared.AgainRefusal.TheVariants as again;
ghost use Rattle.model.specs.Refusals.{factor_number, solve_number, again_number};
ghost use Rattle.model.specs.Promises.{FactorTheorem, SolveTheorem, AgainTheorem};
ghost use Rattle.model.specs.Again.{AgainAsSolve};
ghost use Rattle.model.specs.Controls.{InexactFactors};

use element::{InputRefusal, Numbered};

// Why a factoring has no answer; the number in a case is the column at which it ended.
#[derive(Clone, Copy, PartialEq, Eq, Debug)]
pub enum FactorRefusal {
    Input(InputRefusal),
    Pivot(usize),
    Range(usize),
}

// Something on the way through the two triangular solves is out of range.
#[derive(Clone, Copy, PartialEq, Eq, Debug)]
pub struct OutOfRange;

// Why a system has no answer: its matrix, or something on the way through the two triangular solves is out of range.
#[derive(Clone, Copy, PartialEq, Eq, Debug)]
pub enum SolveRefusal {
    Factoring(FactorRefusal),
    Range,
}

// Why factors that are there already give no answer.
#[derive(Clone, Copy, PartialEq, Eq, Debug)]
pub enum AgainRefusal {
    Input(InputRefusal),
    Factors,
    Range,
}

impl Numbered for FactorRefusal {
    ghost numbered = { factor_number };

    fn number(self) -> u32 {
        match self {
            FactorRefusal::Input(refusal) => refusal.number(),
            FactorRefusal::Pivot(_) => 5,
            FactorRefusal::Range(_) => 6,
        }
    }
}

impl Numbered for SolveRefusal {
    ghost numbered = { solve_number };

    fn number(self) -> u32 {
        match self {
            SolveRefusal::Factoring(refusal) => refusal.number(),
            SolveRefusal::Range => 6,
        }
    }
}

impl Numbered for AgainRefusal {
    ghost numbered = { again_number };

    fn number(self) -> u32 {
        match self {
            AgainRefusal::Input(refusal) => refusal.number(),
            AgainRefusal::Factors => 4,
            AgainRefusal::Range => 6,
        }
    }
}

// By hand, as those below: a derived `From` has no `from_gives`, which clauses name.
impl From<InputRefusal> for FactorRefusal {
    ghost from_gives = { λ s r. r ≡ factoring.Input s };

    fn from(refusal: InputRefusal) -> FactorRefusal {
        FactorRefusal::Input(refusal)
    }
}

impl From<FactorRefusal> for SolveRefusal {
    ghost from_gives = { λ s r. r ≡ solving.Factoring s };

    fn from(refusal: FactorRefusal) -> SolveRefusal {
        SolveRefusal::Factoring(refusal)
    }
}

impl From<InputRefusal> for SolveRefusal {
    ghost from_gives = { λ s r. r ≡ solving.Factoring (factoring.Input s) };

    fn from(refusal: InputRefusal) -> SolveRefusal {
        SolveRefusal::Factoring(FactorRefusal::Input(refusal))
    }
}

impl From<OutOfRange> for SolveRefusal {
    ghost from_gives = { λ _ r. r ≡ solving.Range };

    fn from(_refusal: OutOfRange) -> SolveRefusal {
        SolveRefusal::Range
    }
}

impl From<InputRefusal> for AgainRefusal {
    ghost from_gives = { λ s r. r ≡ again.Input s };

    fn from(refusal: InputRefusal) -> AgainRefusal {
        AgainRefusal::Input(refusal)
    }
}

impl From<OutOfRange> for AgainRefusal {
    ghost from_gives = { λ _ r. r ≡ again.Range };

    fn from(_refusal: OutOfRange) -> AgainRefusal {
        AgainRefusal::Range
    }
}

// The theorems: each function returns nothing and promises, by its contract, a statement of specs/.

// The factors of a matrix that is not refused are near the matrix, and their pivots are bounded.
pub fn factors_near()
    ensures { FactorTheorem }
{}

// The main promise: every answer solves exactly a nearby system.
pub fn solve_is_backward_stable()
    ensures { SolveTheorem }
{}

// Factors from anywhere, of which no pivot is zero, give an answer that solves exactly a system near their product.
pub fn again_is_backward_stable()
    ensures { AgainTheorem }
{}

// With the factors of a factoring that answered, `again` answers and refuses as `solve` does.
pub fn again_is_as_solve()
    ensures { AgainAsSolve }
{}

// There are factors that are not exact, after a row exchange.
pub fn inexact_factors()
    ensures { InexactFactors }
{}
