// Commands with their arguments, how a line is read as one, and the line that answers it.
#![tactic(auto)]

mod answers;
mod commands;
mod parse;
mod replies;
mod words;

pub use answers::{MOST_ANSWER, write_answer};
pub use commands::{Command, Name};
pub use parse::{MOST_LINE, MOST_SCRIPT, is_too_long, parse_line};
pub use protocol::{PacketId, Transfer};
pub use replies::Reply;
