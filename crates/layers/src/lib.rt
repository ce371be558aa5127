// Ledgers made of ledgers: two side by side, and bars over one.
#![tactic(auto)]

mod barring;
mod beside;

pub use barring::Barring;
pub use beside::Beside;
