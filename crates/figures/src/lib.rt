// Numbers as text, and lines written piece by piece into a buffer of the caller's.
#![tactic(auto)]

mod line;
mod numbers;
mod sink;

pub use line::{Line, put_bytes};
pub use numbers::{numbers_and_texts, read_number, write_figure};
pub use sink::Sink;
