// Texts of numbers: one word read as a value of an element type, and a value printed exactly. A cast by `as` stands only
// where it narrows: it is proved to lose nothing, where `TryFrom` would add a failure that never comes.
#![tactic(auto)]

mod binary32;
mod binary64;
mod decimal;
mod digits;
mod exact_word;
mod numeral;
mod print;
mod promises;
mod read;
mod refusal;
#[cfg(test)]
mod tests;

pub use digits::{Digits, Units};
pub use numeral::digit_value;
pub use print::{write_decimal, write_finite, write_number};
pub use promises::{printed_is_exact, printed_is_odd, printed_is_read_back};
pub use read::read_number;
pub use refusal::{NumberRefusal, PrintRefusal};
