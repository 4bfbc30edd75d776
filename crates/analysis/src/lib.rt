// Backward error analysis in whole numbers: how the errors of single roundings gather in factors, solutions and sums.
// The lemmas stand in proofs/ for the crates above; the function is a theorem.
#![tactic(auto)]

ghost use Rattle.analysis.specs.Residual.{ResidualStep};

// One more product subtracted: the step that the factoring and both triangular solves have in common.
pub fn residual_step()
    ensures { ResidualStep }
{}
