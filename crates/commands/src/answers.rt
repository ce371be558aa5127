ghost use Rattle.std.specs.Prelude.{◌≡◌, ◌<◌, ◌≤◌, length, MatchOption};
ghost use Rattle.figures.specs.Figures.{over, spaced};
ghost use Rattle.figures.specs.Lines.{HasRoom, Appends};
ghost use Rattle.commands.specs.Answers.{answer_words, answer_line, reply_answer, answer_of, layer_text};

use super::replies::Reply;
use figures::Line;
use protocol::{Fault, Layer};

/// The most bytes that an answer may have, its LF among them.
pub const MOST_ANSWER: usize = 64;

// A layer by its name. No `Display`: it goes straight into the lent rest of a line.
fn layer_name(layer: Layer) -> &'static [u8]
    ensures value { result.now ≡ layer_text layer }
    ensures short { length result.now ≤ 6 }
{
    match layer {
        Layer::Script => b"script",
        Layer::Book => b"book",
        Layer::Ledger => b"ledger",
        Layer::World => b"world",
    }
}

// The words that tell a reply.
#[tactic(auto, using(figures::proofs::Digits::length_figure_64))]
fn write_reply(line: &mut Line, reply: Reply)
    requires { HasRoom 41 line.old }
    ensures short { length (spaced (answer_words (reply_answer reply))) ≤ 41 }
    ensures text { Appends (spaced (answer_words (reply_answer reply))) line.old line.new }
{
    line.word(b"ok");
    match reply {
        Reply::Done => (),
        Reply::Number(n) => line.figure_word(u128::from(n)),
        Reply::Home(token) => {
            line.figure_word(token.chain as u128);
            line.word(token.symbol.as_slice());
        }
    }
}

// The words behind the line's number.
#[tactic(auto, using(figures::proofs::Digits::length_figure_64))]
fn write_words(line: &mut Line, answer: Result<Reply, Fault>)
    requires { HasRoom 41 line.old }
    ensures short { length (spaced (answer_words (answer_of answer))) ≤ 41 }
    ensures text { Appends (spaced (answer_words (answer_of answer))) line.old line.new }
{
    match answer {
        Ok(reply) => write_reply(line, reply),
        Err(fault) => {
            line.word(b"no");
            line.figure_word(u128::from(fault.number()));
            line.word(layer_name(fault.layer()));
        }
    }
}

/// Writes the answer to a line over the front of a buffer, and answers its length with LF. A buffer of less than 64 bytes is left
/// as it was; in any other the bytes behind the answer keep their values.
#[tactic(auto, using(figures::proofs::Digits::length_figure_64))]
pub fn write_answer(buffer: &mut [u8], number: usize, answer: Result<Reply, Fault>) -> Option<usize>
    ensures length { MatchOption result (length buffer.old < 64) (λ n. n ≡ length (answer_line number (answer_of answer))) }
    ensures buffer { MatchOption result (buffer.new ≡ buffer.old) (λ n. buffer.new ≡ over (answer_line number (answer_of answer)) buffer.old) }
{
    if buffer.len() < MOST_ANSWER {
        return None;
    }
    let mut line = Line::over(buffer);
    line.figure(number as u128);
    write_words(&mut line, answer);
    line.bytes(b"\n");
    Some(line.len())
}
