// The four calls in both formats, for C: each returns 0 or the number of its refusal, and gives the column of a refusal.
#![tactic(auto)]

mod binary32;
mod binary64;
mod column;

pub use binary32::{
    nardlintel_again_f32, nardlintel_factor_f32, nardlintel_multiply_f32, nardlintel_solve_f32,
};
pub use binary64::{
    nardlintel_again_f64, nardlintel_factor_f64, nardlintel_multiply_f64, nardlintel_solve_f64,
};
pub use column::{Columned, report};
