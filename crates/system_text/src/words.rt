// The reader of a text: it holds a reference to what is left of it, and gives each word as a part of that.
ghost use Rattle.std.specs.Prelude.{◌≡◌, ◌≤◌, length};
ghost use Rattle.std.specs.Iterator.{YieldsFirstRef, item_count};
ghost use Rattle.text_model.specs.Words.{separator as separates, words_of};
ghost use Rattle.system_text.specs.Left.{left, leading as leading_bytes};

// Space, tab, carriage return and line feed; std's test of ASCII white space takes the form feed too. Not by `matches!`:
// measured, `solve` on a text of size 128 then takes 5 in 100 instructions more, since the four tests stay four branches.
fn is_separator(byte: u8) -> bool
    ensures { result ≡ separates byte }
{
    (byte == b' ') | (byte == b'\t') | (byte == b'\r') | (byte == b'\n')
}

// How many bytes the text begins with that are separators, or that are not.
fn leading(separators: bool, text: &[u8]) -> usize
    ensures value { result ≡ leading_bytes separators text.now }
    ensures bound { result ≤ length text.now }
{
    text.iter()
        .position(|byte| is_separator(*byte) != separators)
        .unwrap_or(text.len())
}

// The words that are left, from the first on.
#[derive(Drop)]
pub struct Words<'a> {
    rest: &'a [u8],
}

impl<'a> Words<'a> {
    pub fn new(text: &'a [u8]) -> Words<'a>
        ensures { left result ≡ words_of text.now }
    {
        Words { rest: text }
    }
}

impl<'a> Iterator for Words<'a> {
    type Item = &'a [u8];

    ghost next_gives = { YieldsFirstRef left };

    ghost remaining = { item_count left };

    fn next(&mut self) -> Option<&'a [u8]> {
        let (_, text) = self.rest.split_at(leading(true, self.rest));
        let (word, rest) = text.split_at(leading(false, text));
        self.rest = rest;
        if word.is_empty() { None } else { Some(word) }
    }
}
