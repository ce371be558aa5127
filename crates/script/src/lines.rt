ghost use Rattle.std.specs.Prelude.{◌≡◌, ℕ, ◌+◌, ◌<◌, ◌≤◌, [], length, slice_index_or};
ghost use Rattle.script.specs.Lines.{is_comment, may_follow, well_formed, words};

use super::reader::Reader;

/// Whether a line is passed over: it is empty, or it starts with `#`.
pub fn is_comment(line: &[u8]) -> bool
    ensures { result ≡ is_comment line.now }
{
    matches!(line, [] | [b'#', ..])
}

// A byte from 32 to 126 that is no space after a space.
fn may_follow(after_space: bool, b: u8) -> bool
    ensures { result ≡ may_follow after_space b }
{
    matches!(b, b' '..=b'~') && !(after_space && b == b' ')
}

/// Whether each byte is from 32 to 126, and no space is first, last or doubled.
pub fn is_well_formed(line: &[u8]) -> bool
    ensures { result ≡ well_formed line.now }
{
    let mut after_space = true;
    for b in line {
        if !may_follow(after_space, *b) {
            return false;
        }
        after_space = *b == b' ';
    }
    !after_space
}

/// The word of a line at a place, from 0; empty where there is none.
pub fn word_at<'a>(line: &'a [u8], place: usize) -> &'a [u8]
    ensures { result.now ≡ slice_index_or (words line.now) place [] }
{
    Reader::over(line, b' ').nth(place).unwrap_or(b"")
}

/// How many words a line has.
pub fn count_words(line: &[u8]) -> usize
    ensures { result ≡ length (words line.now) }
{
    Reader::over(line, b' ').count()
}
