// What a program reads: the file that its only argument names, or standard input if it has none. What it prints goes to
// standard output.
#![tactic(auto)]

ghost use Rattle.std.specs.Prelude.{ℕ, Ok, OnOk, Vec};
ghost use Rattle.std.specs.Io.KnownBytes.{Appends};

use anyhow::anyhow;
use std::alloc::{AllocError, Global};
use std::fs::File;
use std::io::{Read, Write};
use std::{env, io};

// One byte more than the longest text, so that a longer one is seen to be too long.
const MOST: u64 = 16777217;

// The bytes of the source, at most so many.
fn read_most(heap: Global, source: impl Read + Drop) -> io::Result<Vec<u8>> {
    let mut text = Vec::new(heap);
    source.take(MOST).read_to_end(&mut text)?;
    Ok(text)
}

pub fn read_input(rt: &HostRuntime) -> anyhow::Result<Vec<u8>> {
    let mut words = env::args(rt)?;
    let _program = words.next();
    // Nothing is refused here: without a name, standard input is read.
    let Some(name) = words.next() else {
        return Ok(read_most(rt.alloc(), rt.stdin())?);
    };
    if words.next().is_some() {
        return Err(anyhow!("at most one argument is taken, the name of a file"));
    }
    Ok(read_most(rt.alloc(), File::open(rt, &name)?)?)
}

// Writes what the program makes of the text.
pub fn write_output<W: Write, F: FnOnce(Global, &[u8]) -> Result<Vec<u8>, AllocError>>(
    heap: Global,
    program: F,
    text: &[u8],
    out: &mut W,
) -> anyhow::Result<()>
    requires { F.IsAlwaysCallable program }
    ensures { OnOk result ((v : Vec ℕ Global) × F.post program heap text.entry (Ok v) × Appends (W.contents out.old) (W.contents out.new) v.items) }
{
    let answer = program(heap, text)?;
    out.write_all(&answer)?;
    Ok(())
}

// Prints what the program makes of the input.
pub fn run_program<F: FnOnce(Global, &[u8]) -> Result<Vec<u8>, AllocError>>(
    rt: &HostRuntime,
    program: F,
) -> anyhow::Result<()>
    requires { F.IsAlwaysCallable program }
{
    let text = read_input(rt)?;
    write_output(rt.alloc(), program, &text, &mut rt.stdout())
}
