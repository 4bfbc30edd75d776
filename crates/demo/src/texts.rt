// Numbers as texts: read from the words of a line, and printed.
use element::Real;
use number_text::{Digits, PrintRefusal, read_number, write_number};
use std::alloc::{AllocError, Global};
use std::io;
use std::io::Write;

// The numbers of a text, in which a `/` ends a row.
pub fn numbers<R: Digits>(heap: Global, text: &str) -> io::Result<Vec<R>> {
    text.split_ascii_whitespace()
        .filter(|word| *word != "/")
        .map(|word| {
            read_number(word.as_bytes()).map_err(|_| io::Error::from(io::ErrorKind::InvalidData))
        })
        .try_collect(heap)
}

pub fn show_numbers<R: Digits>(rt: &HostRuntime, numbers: &[R]) -> io::Result<()> {
    for x in numbers {
        let mut text = vec![in rt.alloc(); b' ']?;
        match write_number(*x, &mut text) {
            Ok(()) => rt.write_all(&text)?,
            Err(PrintRefusal::NotFinite) => print!(rt; " not finite")?,
            Err(PrintRefusal::Memory) => return Err(io::Error::from(AllocError)),
        }
    }
    Ok(())
}
