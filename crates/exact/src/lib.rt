// What a float is worth, exactly, and the law of one rounding. The functions are theorems: each returns nothing and
// promises, by its contract, a statement of specs/ that every operation of the library rests on.
#![tactic(auto)]

ghost use Rattle.exact.specs.Rounding.{ProductLaw, SumLaw, DifferenceLaw, QuotientLaw, QuotientAtMostOne};
ghost use Rattle.exact.specs.Controls.{InexactSum, InexactProduct, InexactQuotient, SumReachesBound, ProductBelowRange};

// The law of one rounding, for each operation of either format.
pub fn product_law()
    ensures { ProductLaw }
{}

pub fn sum_law()
    ensures { SumLaw }
{}

pub fn difference_law()
    ensures { DifferenceLaw }
{}

pub fn quotient_law()
    ensures { QuotientLaw }
{}

// A quotient of magnitude at most 1 rounds to one of magnitude at most 1.
pub fn quotient_at_most_one()
    ensures { QuotientAtMostOne }
{}

// The laws are met by results that are not exact.
pub fn inexact_sum()
    ensures { InexactSum }
{}

pub fn inexact_product()
    ensures { InexactProduct }
{}

pub fn inexact_quotient()
    ensures { InexactQuotient }
{}

// The bound is reached, and a product needs its range.
pub fn sum_reaches_bound()
    ensures { SumReachesBound }
{}

pub fn product_below_range()
    ensures { ProductBelowRange }
{}
