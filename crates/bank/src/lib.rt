// Banks of one chain: what a bank refuses and does, whatever keeps its balances.
#![tactic(auto)]

mod one_chain;
mod store;

pub use one_chain::Bank;
pub use store::{Holding, Store};
