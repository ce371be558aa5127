// Scripts read in place: lines, words, and the checks that a line has to pass before it is read.
#![tactic(auto)]

mod lines;
mod reader;

pub use lines::{count_words, is_comment, is_well_formed, word_at};
pub use reader::{Reader, Script};
