// Words of both formats and what they are read and printed as; words that are no number.
use crate::digits::Digits;
use crate::print::write_number;
use crate::read::read_number;
use crate::refusal::{NumberRefusal, PrintRefusal};
use element::Numbered;
use std::alloc::Global;
use std::process::Abort;
use std::test::Fail;

// The word is a number that is printed as the text; no text stands for no number.
fn same<R: Digits>(rt: &impl Abort, heap: Global, word: &[u8], text: &[u8]) -> Result<(), Fail> {
    let mut out = Vec::new(heap);
    if let Ok(x) = read_number::<R>(word) {
        write_number(x, &mut out)?;
    }
    assert_eq!(rt; out.as_slice(), text);
    Ok(())
}

// Each row: a word, and its text in binary64 and in binary32.
fn all_same(rt: &impl Abort, heap: Global, rows: &[(&str, &str, &str)]) -> Result<(), Fail> {
    for (word, double, single) in rows {
        same::<f64>(rt, heap, word.as_bytes(), double.as_bytes())?;
        same::<f32>(rt, heap, word.as_bytes(), single.as_bytes())?;
    }
    Ok(())
}

#[test]
fn decimals(rt: HostRuntime) -> Result<(), Fail> {
    let rows = [
        ("0.1", "0xccccccccccccdp-55", "0xcccccdp-27"),
        ("-.5", "-0x1p-1", "-0x1p-1"),
        ("5.", "0x5p0", "0x5p0"),
        ("-0.", "-0x0p0", "-0x0p0"),
        ("000000000000001", "0x1p0", "0x1p0"),
        ("123456789012345", "0x7048860ddf79p0", "0x382443p25"),
        (".000000000000001", "0x901d7cf73ab0bp-101", "0x901d7dp-73"),
        // By way of binary64 its binary32 value would be 0x15fe27p-18.
        ("5.49819540977478", "0x15fe26fp-22", "0xaff137p-21"),
    ];
    all_same(&rt, rt.alloc(), &rows)
}

#[test]
fn exact_words(rt: HostRuntime) -> Result<(), Fail> {
    let rows = [
        ("0xAp0", "0x5p1", "0x5p1"),
        ("0x1p-0001", "0x1p-1", "0x1p-1"),
        ("0x0p9999", "0x0p0", "0x0p0"),
        ("0x0p0", "0x0p0", "0x0p0"),
        ("-0x0p0", "-0x0p0", "-0x0p0"),
        ("0x80000000000000p0", "0x1p55", "0x1p55"),
        ("0x1p-1074", "0x1p-1074", ""),
        ("0x2p-1075", "0x1p-1074", ""),
        ("0x1fffffffffffffp971", "0x1fffffffffffffp971", ""),
        ("0x1p-149", "0x1p-149", "0x1p-149"),
        ("0xffffffp104", "0xffffffp104", "0xffffffp104"),
        ("0x1p-150", "0x1p-150", ""),
        ("0x1000001p0", "0x1000001p0", ""),
        ("0x1p128", "0x1p128", ""),
    ];
    all_same(&rt, rt.alloc(), &rows)
}

#[test]
fn no_numbers(rt: HostRuntime) -> Result<(), Fail> {
    let words = [
        ".",
        "-",
        "-.",
        "+1",
        "1e3",
        "1.2.3",
        "1234567890123456",
        "0X1p0",
        "0x1P0",
        "0x10",
        "0xp0",
        "0x1p-",
        "0x000000000000001p0",
        "0x1p00001",
        "0x1p--1",
        "0x1.8p1",
        "0x1p1024",
        "0x1p-1075",
        "0x3p-1075",
        "0xffffffffffffffp0",
    ];
    for word in &words {
        same::<f64>(&rt, rt.alloc(), word.as_bytes(), b"")?;
        same::<f32>(&rt, rt.alloc(), word.as_bytes(), b"")?;
    }
    assert_eq!(rt; NumberRefusal::NotANumber.number(), 7);
    Ok(())
}

#[test]
fn thirds(rt: HostRuntime) -> Result<(), Fail> {
    let mut text = Vec::new(rt.alloc());
    write_number(1.0f64 / 3.0, &mut text)?;
    write_number(1.0f32 / 3.0, &mut text)?;
    assert_eq!(rt;
        text.as_slice(),
        b"0x15555555555555p-540xaaaaabp-25".as_slice()
    );
    Ok(())
}

#[test]
fn infinity(rt: HostRuntime) {
    let mut text = Vec::new(rt.alloc());
    assert_eq!(rt;
        write_number(1.0f64 / 0.0, &mut text),
        Err(PrintRefusal::NotFinite)
    );
}
