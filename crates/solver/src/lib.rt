// The four calls of the library, for any element type.
#![tactic(auto)]

mod call;
mod outcomes;
mod solve;
#[cfg(test)]
mod tests;

pub use call::Solver;
pub use outcomes::Outcomes;
pub use solve::solve_with;
