#![tactic(auto)]

// Ledgers and books at work: one table of operations on every ledger, notes that have to be joined, the largest supply, bars,
// and both books.
#[cfg(test)]
mod at_books;
#[cfg(test)]
mod at_ledgers;
