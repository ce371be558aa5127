// Books of receipt: what every book does, and the free and the strict one.
#![tactic(auto)]

mod book;
mod receipts;

pub use book::Book;
pub use receipts::{FreeBook, ReceiptBook, StrictBook};
