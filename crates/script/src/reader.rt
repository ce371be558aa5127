ghost use Rattle.std.specs.Prelude.{◌≡◌, ℕ, ◌<◌, ◌≤◌, length, ◌≢◌, slice_index};
ghost use Rattle.std.specs.Iterator.{item_count};

// The text with the place beside it, as it is read in place and its pieces are parts of it.
/// A text read in place, piece by piece, each up to the byte `end`.
#[derive(Drop)]
pub struct Reader<'a> {
    text: &'a [u8],
    at: usize,
    end: u8,
}

// Where the first byte `end` stands, or the length where there is none.
fn find_end(text: &[u8], end: u8) -> usize
    ensures within { result ≤ length text.now }
    ensures before { (k : ℕ) → k < result → slice_index text.now k ≢ end }
    ensures stops { result < length text.now → slice_index text.now result ≡ end }
{
    text.iter().position(|b| *b == end).unwrap_or(text.len())
}

impl<'a> Reader<'a> {
    /// A reader at the beginning of a text.
    pub fn over(text: &'a [u8], end: u8) -> Reader<'a>
        ensures text { result.text.now ≡ text.now }
        ensures at { result.at ≡ 0 }
        ensures end { result.end ≡ end }
    {
        Reader { text, at: 0, end }
    }
}

/// The pieces, each a part of the text.
impl<'a> Iterator for Reader<'a> {
    ghost use Rattle.script.specs.Readers.{pieces_left, GivesPiece};

    type Item = &'a [u8];

    ghost next_gives = { GivesPiece };

    ghost remaining = { item_count pieces_left };

    fn next(&mut self) -> Option<&'a [u8]> {
        if self.at >= self.text.len() {
            return None;
        }
        let rest = &self.text[self.at..];
        let n = find_end(rest, self.end);
        if n < rest.len() {
            self.at += n + 1;
            return Some(&rest[0..n]);
        }
        self.at += n;
        Some(rest)
    }
}

/// A script read in place, line by line, with the number of each line, from 1.
#[derive(Drop)]
pub struct Script<'a> {
    lines: Reader<'a>,
    read: usize,
    ghost few: { read ≤ lines.at },
}

impl<'a> Script<'a> {
    /// A script from its first line.
    pub fn over(text: &'a [u8]) -> Script<'a>
        ensures text { result.lines.text.now ≡ text.now }
        ensures at { result.lines.at ≡ 0 }
        ensures end { result.lines.end ≡ 10 }
        ensures read { result.read ≡ 0 }
    {
        Script {
            lines: Reader::over(text, b'\n'),
            read: 0,
        }
    }
}

/// The lines, each with its number.
impl<'a> Iterator for Script<'a> {
    ghost use Rattle.script.specs.Readers.{lines_left, GivesLine};

    type Item = (usize, &'a [u8]);

    ghost next_gives = { GivesLine };

    ghost remaining = { item_count lines_left };

    fn next(&mut self) -> Option<(usize, &'a [u8])> {
        let line = self.lines.next()?;
        self.read += 1;
        Some((self.read, line))
    }
}
