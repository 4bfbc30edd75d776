// LU factoring with row exchanges of a square matrix that lies row by row in one slice: one code for both formats.
#![tactic(auto)]

mod columns;
mod eliminate;
mod exchange;
mod factor;
mod factoring;
mod pivot;
#[cfg(test)]
mod tests;
mod thresholds;

pub use factor::{factor_into, factor_matrix};
