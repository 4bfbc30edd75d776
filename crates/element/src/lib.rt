// The number types, and what is computed with rows of them: one code for both formats.
#![tactic(auto)]

mod binary32;
mod binary64;
mod call;
mod inputs;
mod iteration;
mod matrix;
mod multiply;
mod products;
mod real;
mod refusal;
#[cfg(test)]
mod tests;

pub use call::{Multiply, product_subtracted, products_subtracted};
pub use inputs::{all_finite, check_inputs};
pub use matrix::{Matrix, MatrixRows};
pub use multiply::multiply_matrix;
pub use products::{add_product, subtract_product, subtract_products, sum_in_range, sum_products};
pub use real::Real;
pub use refusal::{InputRefusal, MultiplyRefusal, Numbered, outcome_number};
