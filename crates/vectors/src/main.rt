// Runs the three programs' functions on many texts and prints what each gives, to be compared with what a second program
// gives. A case is a line with the program's name and the length of its text, and then the text and a line feed.
#![tactic(auto)]

ghost use Rattle.std.specs.Prelude.{◌<◌, length, IfSome};
ghost use Rattle.std.specs.Iterator.{at_most};

use number_text::digit_value;
use std::alloc::{AllocError, Global};
use std::io::{Read, Write};
use text_calls::{again_text, factors_text, solve_text};

#[derive(Drop)]
struct Case<'a> {
    program: &'a [u8],
    text: &'a [u8],
}

// The cases that are left of an input, up to the first that is not there whole.
#[derive(Drop)]
struct Cases<'a> {
    rest: &'a [u8],
}

// What stands before the first such byte and after it, if there is one.
fn split_once(byte: u8, text: &[u8]) -> Option<(&[u8], &[u8])>
    ensures { IfSome result (λ p. length p.1.now < length text.now) }
{
    let at = text.iter().position(|other| *other == byte)?;
    Some((&text[..at], &text[at + 1..]))
}

fn length_of(digits: &[u8]) -> usize {
    digits.iter().fold(0usize, |length, digit| {
        // `as`, since there is no `From<u64> for usize`.
        length
            .saturating_mul(10)
            .saturating_add(digit_value(*digit) as usize)
    })
}

impl<'a> Iterator for Cases<'a> {
    type Item = Case<'a>;

    ghost remaining = { λ s. at_most (length s.rest.now) };

    fn next(&mut self) -> Option<Case<'a>> {
        let (line, after) = split_once(b'\n', self.rest)?;
        let (program, digits) = split_once(b' ', line)?;
        let length = length_of(digits);
        if length >= after.len() {
            return None;
        }
        self.rest = &after[length + 1..];
        Some(Case {
            program,
            text: &after[..length],
        })
    }
}

// By its name, since the input names it; a table of functions would be searched by the same names.
fn printed(heap: Global, case: &Case) -> Result<Vec<u8>, AllocError> {
    match case.program {
        b"solve" => solve_text(heap, case.text),
        b"factors" => factors_text(heap, case.text),
        _ => again_text(heap, case.text),
    }
}

fn main(rt: HostRuntime) -> anyhow::Result<()> {
    let mut input = Vec::new(rt.alloc());
    rt.stdin().read_to_end(&mut input)?;
    for case in (Cases { rest: &input }) {
        rt.stdout().write_all(case.program)?;
        rt.stdout().write_all(b":\n")?;
        rt.stdout().write_all(&printed(rt.alloc(), &case)?)?;
    }
    Ok(())
}
