// One case of each call, worked out and printed.
use crate::texts::{numbers, show_numbers};
use element::Real;
use factor::factor_matrix;
use number_text::Digits;
use solver::{Outcomes, Solver};
use std::io;
use text_model::TextRefusal;

fn show_refusal(rt: &HostRuntime, refusal: TextRefusal) -> io::Result<()> {
    print!(rt; "no answer {refusal}")
}

// The factors and the order of a matrix of n rows, or the refusal and what it leaves.
pub fn show_factors<R: Digits>(rt: &HostRuntime, n: usize, matrix: &str) -> io::Result<()> {
    let heap = rt.alloc();
    let a = numbers::<R>(heap, matrix)?;
    let mut lu = Vec::from_slice(heap, &a)?;
    let mut order = vec![in heap; 0u16; n]?;
    print!(rt; "{matrix}: ")?;
    match factor_matrix(n, &a, &mut lu, &mut order) {
        Ok(()) => print!(rt; "factors")?,
        Err(refusal) => {
            show_refusal(rt, TextRefusal::from(refusal))?;
            print!(rt; ", left")?;
        }
    }
    show_numbers(rt, &lu)?;
    print!(rt; " order")?;
    for row in &order {
        print!(rt; " {row}")?;
    }
    println!(rt; "")
}

// The answer of a system, or its refusal: the call gives its number, and the refusal itself has the column at which a
// factoring ended.
pub fn show_system<R: Digits>(rt: &HostRuntime, matrix: &str, right: &str) -> io::Result<()> {
    let heap = rt.alloc();
    let a = numbers::<R>(heap, matrix)?;
    let b = numbers::<R>(heap, right)?;
    let n = b.len();
    let mut lu = Vec::from_slice(heap, &a)?;
    let mut order = vec![in heap; 0u16; n]?;
    let mut x = Vec::from_slice(heap, &b)?;
    print!(rt; "{matrix} with {right}: ")?;
    if R::solve(n, &a, &b, &mut lu, &mut order, &mut x) == 0 {
        print!(rt; "answer")?;
        show_numbers(rt, &x)?;
    } else if let Err(refusal) = R::solve_outcome(n, &a, &b, &mut lu, &mut order, &mut x) {
        show_refusal(rt, TextRefusal::from(refusal))?;
    }
    println!(rt; "")
}

// The product of a matrix and a vector, or its refusal.
pub fn show_product<R: Digits>(rt: &HostRuntime, matrix: &str, vector: &str) -> io::Result<()> {
    let heap = rt.alloc();
    let a = numbers::<R>(heap, matrix)?;
    let x = numbers::<R>(heap, vector)?;
    let mut y = Vec::from_slice(heap, &x)?;
    print!(rt; "{matrix} times {vector}: ")?;
    match R::multiply(x.len(), &a, &x, &mut y) {
        0 => {
            print!(rt; "answer")?;
            show_numbers(rt, &y)?;
        }
        number => print!(rt; "no answer {number}")?,
    }
    println!(rt; "")
}
