// What the programs print: answers, and the order in which refusals are looked for in every pair that can meet.
use std::alloc::{AllocError, Global};
use std::process::Abort;
use std::test::Fail;
use text_calls::{again_text, factors_text, solve_text};

// Each row: a text, and what the program prints for it.
fn prints(
    rt: &impl Abort,
    heap: Global,
    program: fn(Global, &[u8]) -> Result<Vec<u8>, AllocError>,
    rows: &[(&str, &str)],
) -> Result<(), Fail>
    requires { IsAlwaysCallable program }
{
    for (text, lines) in rows {
        let printed = program(heap, text.as_bytes())?;
        assert_eq!(rt; printed.as_slice(), lines.as_bytes());
    }
    Ok(())
}

#[test]
fn answers(rt: HostRuntime) -> Result<(), Fail> {
    let rows = [
        ("system 1\n3 1\n", "answer\n0x15555555555555p-54\n"),
        ("system32 1 3 1", "answer\n0xaaaaabp-25\n"),
        (
            "\r\nsystem\t2\r\n2 1 3\r\n4 3 7\r\n",
            "answer\n0x1p0\n0x1p0\n",
        ),
        ("system 0000000001 3 1", "answer\n0x15555555555555p-54\n"),
        ("system 1 0x1p600 -0", "answer\n-0x0p0\n"),
    ];
    prints(&rt, rt.alloc(), solve_text, &rows)
}

// Refusals of a system's text, and of the work.
#[test]
fn solve_refusals(rt: HostRuntime) -> Result<(), Fail> {
    let rows = [
        ("", "no answer 7\n"),
        ("system", "no answer 7\n"),
        ("System 0", "no answer 7\n"),
        ("system -1 3 1", "no answer 7\n"),
        ("system 1.0 3 1", "no answer 7\n"),
        ("system 0 z", "no answer 1\n"),
        ("system 129", "no answer 1\n"),
        ("system 9999999999999999999999 z", "no answer 1\n"),
        ("system 1 z", "no answer 7\n"),
        ("system 1 3 1 z", "no answer 7\n"),
        ("system 1 3\x0b1", "no answer 7\n"),
        ("system32 1 0x1000001p0 1", "no answer 7\n"),
        ("system 1 3", "no answer 8\n"),
        ("system 1 0 1 1", "no answer 8\n"),
        ("system 1 0 z", "no answer 7\n"),
        ("system 1 0 1", "no answer 5 0\n"),
        ("system 2 1 1 0 1 1 0", "no answer 5 1\n"),
        ("system 2 0x1p-1001 1 0 1 1 0", "no answer 6 0\n"),
        ("system 1 0x1p-600 0x1p600", "no answer 6 solving\n"),
    ];
    prints(&rt, rt.alloc(), solve_text, &rows)
}

// A text that is too long is refused for that alone.
#[test]
fn too_long(rt: HostRuntime) -> Result<(), Fail> {
    let text = vec![in rt.alloc(); b'x'; 16777217]?;
    assert_eq!(rt;
        solve_text(rt.alloc(), &text)?.as_slice(),
        b"no answer 1\n".as_slice()
    );
    assert_eq!(rt;
        again_text(rt.alloc(), &text)?.as_slice(),
        b"no answer 1\n".as_slice()
    );
    assert_eq!(rt;
        solve_text(rt.alloc(), &text[1..])?.as_slice(),
        b"no answer 7\n".as_slice()
    );
    Ok(())
}

#[test]
fn factors_texts(rt: HostRuntime) -> Result<(), Fail> {
    let rows = [
        (
            "system 2 2 1 3 4 3 7",
            "factors 2\n1 0\n0x1p2 0x3p0\n0x1p-1 -0x1p-1\n",
        ),
        ("system32 1 0x1p-60 0x1p60", "factors32 1\n0\n0x1p-60\n"),
        ("system 1 0 1", "no answer 5 0\n"),
        ("system 2 0x1p-1001 1 0 1 1 0", "no answer 6 0\n"),
        ("factors 1 0 1", "no answer 7\n"),
        ("system 1 3", "no answer 8\n"),
        ("system 0 z", "no answer 1\n"),
    ];
    prints(&rt, rt.alloc(), factors_text, &rows)
}

// Right sides, one after the other.
#[test]
fn right_sides(rt: HostRuntime) -> Result<(), Fail> {
    let rows = [
        (
            "factors 2 1 0 0x1p2 0x3p0 0x1p-1 -0x1p-1 3 7",
            "answer\n0x1p0\n0x1p0\n",
        ),
        ("factors32 1 0 3 1", "answer\n0xaaaaabp-25\n"),
        ("factors 1 0 1", ""),
        ("factors 1 0 1 5 z 6", "answer\n0x5p0\nno answer 7\n"),
        (
            "factors 2 0 1 1 0 0 1 1 2 3",
            "answer\n0x1p0\n0x1p1\nno answer 8\n",
        ),
        (
            "factors 2 0 1 1 0 0 1 1 2 z",
            "answer\n0x1p0\n0x1p1\nno answer 7\n",
        ),
        (
            "factors 1 0 0x1p-600 0x1p600 1",
            "no answer 6 solving\nanswer\n0x1p600\n",
        ),
    ];
    prints(&rt, rt.alloc(), again_text, &rows)
}

// Refusals of the head.
#[test]
fn again_refusals(rt: HostRuntime) -> Result<(), Fail> {
    let rows = [
        ("factors", "no answer 7\n"),
        ("system 0 1 1", "no answer 7\n"),
        ("factors x", "no answer 7\n"),
        ("factors 0 z", "no answer 1\n"),
        ("factors 129", "no answer 1\n"),
        ("factors 1 z", "no answer 7\n"),
        ("factors 1 -0 1 1", "no answer 7\n"),
        ("factors 1 7 z", "no answer 7\n"),
        ("factors 2 0 1 1 z", "no answer 7\n"),
        ("factors 1 7", "no answer 8\n"),
        ("factors 2 0 0 1 0 0", "no answer 8\n"),
        ("factors 1 0 0 z", "no answer 4\n"),
        ("factors 1 7 1 1", "no answer 4\n"),
        ("factors 1 4294967296 1 1", "no answer 4\n"),
        ("factors 2 0 0 1 0 0 1 1 2", "no answer 4\n"),
        ("factors 2 0 1 1 0 0 -0", "no answer 4\n"),
    ];
    prints(&rt, rt.alloc(), again_text, &rows)
}
