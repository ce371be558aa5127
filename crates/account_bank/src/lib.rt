// The account bank: one chain's balances as a table of amounts, 32 denominations to an account.
#![tactic(auto)]

mod amounts;
mod laws;

pub use amounts::{AccountBank, Amounts};
pub use laws::bank_means_its_table;
