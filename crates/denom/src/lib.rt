// Symbols, hops and denominations, and the texts that stand for them.
#![tactic(auto)]

mod equality;
mod reader;
mod traces;
mod types;
mod writer;

pub use equality::equality_is_sameness;
pub use reader::{denominations_and_texts, read_denomination};
pub use types::{Denomination, Hops, Symbol, TextFault, TokenId};
pub use writer::write_denomination;
