// The two triangular solves with factors that stand in one matrix, and the call `again`: one code for both formats.
#![tactic(auto)]

mod again;
mod checks;
mod factors;
mod order;
#[cfg(test)]
mod tests;
mod upper;

pub use again::again_with;
pub use checks::{factors_sound, is_permutation, no_zero_pivot};
pub use factors::Factors;
pub use order::Order;
pub use upper::backward_solve;
