// Answers, factors and refusals, written as lines.
ghost use Rattle.std.specs.Prelude.{◌≡◌, ℕ, List, ◌++◌, map, OnOk};
ghost use Rattle.element.specs.Rows.{matrix_values};
ghost use Rattle.number_text.specs.Printed.{printed};
ghost use Rattle.text_model.specs.Refusals.{factoring_detail, detail as detail_of, no_answer};
ghost use Rattle.text_model.specs.Lines.{number_lines, answer, line, row_lines, factors_word, factors_text};
ghost use Rattle.system_text.specs.Write.{Appends};

use element::{Matrix, Numbered, Real};
use model::FactorRefusal;
use number_text::{Digits, write_decimal, write_finite};
use std::alloc::AllocError;
use text_model::{Precision, TextRefusal};

// What stands between the words of a line.
const SEPARATOR: u8 = b' ';

// Appends the text of a value; one that is not finite has none.
fn write_value<R: Digits>(x: R, out: &mut Vec<u8>) -> Result<(), AllocError>
    ensures { OnOk result (out.new.items ≡ out.old.items ++ printed (R.Real.val x)) }
{
    if x.is_finite() {
        write_finite(x, out)
    } else {
        Ok(())
    }
}

// Numbers, one a line.
fn write_numbers<R: Digits>(numbers: &[R], out: &mut Vec<u8>) -> Result<(), AllocError>
    ensures { OnOk result (out.new.items ≡ out.old.items ++ number_lines (map R.Real.val numbers.now)) }
{
    for x in numbers {
        write_value(*x, out)?;
        out.push(b'\n')?;
    }
    Ok(())
}

pub fn write_answer<R: Digits>(numbers: &[R], out: &mut Vec<u8>) -> Result<(), AllocError>
    ensures { OnOk result (out.new.items ≡ out.old.items ++ answer (map R.Real.val numbers.now)) }
{
    out.extend_from_slice(b"answer\n")?;
    write_numbers(numbers, out)
}

// Items in one line, with a separator between the words that `word` appends for them.
fn write_line<T: Copy + Drop, F: Fn(T, &mut Vec<u8>) -> Result<(), AllocError>>(
    items: &[T],
    word: F,
    out: &mut Vec<u8>,
) -> Result<(), AllocError>
    requires { F.IsAlwaysCallable word }
    ensures { OnOk result ((text : T → List ℕ) → Appends (F.post word) text → out.new.items ≡ out.old.items ++ line (map text items.now)) }
{
    if let [first, rest @ ..] = items {
        word(*first, out)?;
        for item in rest {
            out.push(SEPARATOR)?;
            word(*item, out)?;
        }
    }
    out.push(b'\n')?;
    Ok(())
}

// The rows of a matrix, each in a line.
fn write_rows<R: Digits>(a: &Matrix<R>, out: &mut Vec<u8>) -> Result<(), AllocError>
    ensures { OnOk result (out.new.items ≡ out.old.items ++ row_lines (matrix_values R.Real.val a.now)) }
{
    for row in a.rows() {
        write_line(row, |x, out| write_value(x, out), out)?;
    }
    Ok(())
}

// The word that the text of factors begins with. A `Display` of the format would be no plainer, since no other text has
// these words.
fn write_format(precision: Precision, out: &mut Vec<u8>) -> Result<(), AllocError>
    ensures { OnOk result (out.new.items ≡ out.old.items ++ factors_word precision) }
{
    match precision {
        Precision::Double => out.extend_from_slice(b"factors"),
        Precision::Single => out.extend_from_slice(b"factors32"),
    }
}

// The text of factors: the format and the size, the order, and the rows.
pub fn write_factors<R: Digits>(
    precision: Precision,
    order: &[u16],
    lu: &Matrix<R>,
    out: &mut Vec<u8>,
) -> Result<(), AllocError>
    ensures { OnOk result (out.new.items ≡ out.old.items ++ factors_text precision lu.now.size order.now (map R.Real.val lu.now.entries.now)) }
{
    write_format(precision, out)?;
    out.push(SEPARATOR)?;
    // `as`, since there is no `From<usize> for u64`.
    write_decimal(lu.size() as u64, out)?;
    out.push(b'\n')?;
    write_line(order, |row, out| write_decimal(u64::from(row), out), out)?;
    write_rows(lu, out)
}

// The number of a refusal of the factoring, with the column. This and the next are by hand, though the refusal has a
// `Display`: by a formatter a line takes nine times as long, and more with a text of its own, which memory can end at too.
fn write_factoring(refusal: FactorRefusal, out: &mut Vec<u8>) -> Result<(), AllocError>
    ensures { OnOk result (out.new.items ≡ out.old.items ++ factoring_detail refusal) }
{
    match refusal {
        FactorRefusal::Input(input) => write_decimal(u64::from(input.number()), out),
        FactorRefusal::Pivot(column) => {
            out.extend_from_slice(b"5 ")?;
            // `as`, as in `write_factors`.
            write_decimal(column as u64, out)
        }
        FactorRefusal::Range(column) => {
            out.extend_from_slice(b"6 ")?;
            write_decimal(column as u64, out)
        }
    }
}

fn write_detail(refusal: TextRefusal, out: &mut Vec<u8>) -> Result<(), AllocError>
    ensures { OnOk result (out.new.items ≡ out.old.items ++ detail_of refusal) }
{
    match refusal {
        TextRefusal::Size => out.extend_from_slice(b"1"),
        TextRefusal::Form => out.extend_from_slice(b"7"),
        TextRefusal::Count => out.extend_from_slice(b"8"),
        TextRefusal::Factors => out.extend_from_slice(b"4"),
        TextRefusal::Factoring(refusal) => write_factoring(refusal, out),
        TextRefusal::Solving => out.extend_from_slice(b"6 solving"),
        TextRefusal::Memory => Ok(()),
    }
}

pub fn write_refusal(refusal: TextRefusal, out: &mut Vec<u8>) -> Result<(), AllocError>
    ensures { OnOk result (out.new.items ≡ out.old.items ++ no_answer refusal) }
{
    out.extend_from_slice(b"no answer ")?;
    write_detail(refusal, out)?;
    out.push(b'\n')?;
    Ok(())
}
