// The audit of a world: its figures, each a total of its own, and its lines as text.
#![tactic(auto)]

mod balances;
mod columns;
mod entries;
mod lines;
mod report;
mod rows;
mod slots;

pub use report::{write_audit, write_line};
