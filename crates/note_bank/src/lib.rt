// The note bank: one chain's balances as notes, each in a place of its own.
#![tactic(auto)]

mod laws;
mod notes;
mod pairs;
mod place;
mod rows;

pub use laws::bank_means_its_notes;
pub use notes::{NoteBank, Notes};
pub use place::{Note, Place};
