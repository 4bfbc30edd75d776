// A small example of using the library, in binary64 and in binary32: factors and orders of matrices, answers of systems, and
// products. Numbers are printed as exact texts; a refusal by its number, with the column at which a factoring ended.
#![tactic(auto)]

mod show;
mod texts;

use element::Real;
use number_text::Digits;
use show::{show_factors, show_product, show_system};
use std::io;

// A square panel of bars with both diagonals; the loads pull at one corner and press on the other.
const TRUSS: &str =
    "22.68 -7.68 5.76 0 0 / -7.68 22.68 -5.76 -15 0 / 5.76 -5.76 24.32 0 0 / 0 -15 0 22.68 5.76 / 0 0 0 5.76 24.32";

const LOADS: &str = "0 10 0 0 -6";

// What is the same in both formats.
fn show_cases<R: Digits>(rt: &HostRuntime) -> io::Result<()> {
    show_factors::<R>(rt, 2, "2 1 / 4 3")?;
    show_factors::<R>(rt, 2, "1 1 / 1 1")?;
    show_factors::<R>(rt, 2, "0 0 / 0 0")?;
    show_factors::<R>(rt, 2, "0 1 / -1 0")?;
    show_factors::<R>(rt, 2, "1 1 / -1 1")?;
    show_system::<R>(rt, "3", "1")?;
    show_system::<R>(rt, "0", "1")?;
    show_system::<R>(rt, "-0", "1")?;
    show_system::<R>(rt, "2 1 / 4 3", "3 7")?;
    show_system::<R>(rt, "0 1 / -1 0", "2 3")?;
    show_system::<R>(rt, TRUSS, LOADS)?;
    show_product::<R>(rt, "1 2 / 3 4", "1 1")?;
    show_product::<R>(rt, "-1", "0")
}

// What is out of range in one format, for a number near the middle of the range above 1 and its reciprocal.
fn show_limits<R: Digits>(rt: &HostRuntime, large: &str, small: &str) -> io::Result<()> {
    show_system::<R>(rt, small, large)?;
    show_system::<R>(rt, large, small)?;
    show_system::<R>(rt, large, "-0")?;
    show_product::<R>(rt, large, large)?;
    show_product::<R>(rt, small, small)
}

fn main(rt: HostRuntime) -> io::Result<()> {
    println!(&rt; "binary64")?;
    show_cases::<f64>(&rt)?;
    show_factors::<f64>(&rt, 2, "0x1p600 1 / 0x1p-600 1")?;
    show_limits::<f64>(&rt, "0x1p600", "0x1p-600")?;
    println!(&rt; "binary32")?;
    show_cases::<f32>(&rt)?;
    show_factors::<f32>(&rt, 2, "0x1p64 1 / 0x1p-64 1")?;
    show_limits::<f32>(&rt, "0x1p64", "0x1p-64")
}
