// The programs' work, from the text that is read to the text that is printed.
#![tactic(auto)]

mod again;
mod factors;
mod program;
mod rows;
mod solve;

pub use again::again_text;
pub use factors::factors_text;
pub use solve::solve_text;
