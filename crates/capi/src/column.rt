// The column of a refusal.
ghost use Rattle.std.specs.Prelude.{◌≡◌, ℕ, Option as Opt};
ghost use Rattle.element.specs.Refusals.{outcome_number};
ghost use Rattle.capi.specs.Columns.{factor_column, solve_column, again_column, outcome_column};

use element::Numbered;
use model::{AgainRefusal, FactorRefusal, SolveRefusal};

// A refusal of a system of size n has the column at which the factoring ended, or n if solving is what refuses, or none.
pub trait Columned: Numbered {
    ghost columned: { ℕ → Self → Opt ℕ };

    fn column(self, n: usize) -> Option<usize>
        ensures { result ≡ columned n self };
}

impl Columned for FactorRefusal {
    ghost columned = { λ _. factor_column };

    fn column(self, _n: usize) -> Option<usize> {
        match self {
            FactorRefusal::Input(_) => None,
            FactorRefusal::Pivot(k) | FactorRefusal::Range(k) => Some(k),
        }
    }
}

impl Columned for SolveRefusal {
    ghost columned = { solve_column };

    fn column(self, n: usize) -> Option<usize> {
        match self {
            SolveRefusal::Factoring(refusal) => refusal.column(n),
            SolveRefusal::Range => Some(n),
        }
    }
}

impl Columned for AgainRefusal {
    ghost columned = { again_column };

    fn column(self, n: usize) -> Option<usize> {
        match self {
            AgainRefusal::Input(_) | AgainRefusal::Factors => None,
            AgainRefusal::Range => Some(n),
        }
    }
}

// The number of an outcome, which is what C is given for it. The column of a refusal that has one is written.
pub fn report<E: Columned>(outcome: Result<(), E>, n: usize, column: &mut usize) -> u32
    ensures number { result ≡ outcome_number E.Numbered.numbered outcome }
    ensures column { column.new ≡ outcome_column (E.Columned.columned n) outcome column.old }
{
    match outcome {
        Ok(()) => 0,
        Err(refusal) => {
            if let Some(k) = refusal.column(n) {
                *column = k;
            }
            refusal.number()
        }
    }
}
