// Words read one after the other, all by one reader.
ghost use Rattle.std.specs.Prelude.{◌≡◌, take, drop, OnOk};
ghost use Rattle.std.specs.Fn.{FnReturnsAt};
ghost use Rattle.system_text.specs.Left.{left};
ghost use Rattle.system_text.specs.Each.{EachRead};

use crate::words::Words;
use std::alloc::Global;
use text_model::TextRefusal;

// What `read` makes of each of the next `most` words, or of all words if there are fewer. A range counts them, and not
// `take`: of the words that it leaves once it has given `most`, std's contract says nothing.
pub fn read_each<T: Drop, F: Fn(&[u8]) -> Result<T, TextRefusal>>(
    heap: Global,
    words: &mut Words,
    most: usize,
    read: F,
) -> Result<Vec<T>, TextRefusal>
    requires { F.IsAlwaysCallable read }
    ensures each { EachRead (FnReturnsAt F.Fn read) (take most (left words.old)) result }
    ensures rest { OnOk result (left words.new ≡ drop most (left words.old)) }
{
    let mut items = Vec::new(heap);
    for _ in 0..most {
        let Some(word) = words.next() else {
            break;
        };
        items.push(read(word)?)?;
    }
    Ok(items)
}
