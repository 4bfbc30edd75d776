// Texts of systems and of factors: read into numbers, and written.
#![tactic(auto)]

mod each;
mod factors;
mod head;
mod numbers;
mod open;
mod system;
mod whole;
mod words;
mod write;

pub use factors::{FactorsText, read_factors};
pub use head::Head;
pub use numbers::read_numbers;
pub use open::{open_text, read_head};
pub use system::{SystemText, read_system};
pub use words::Words;
pub use write::{write_answer, write_factors, write_refusal};
