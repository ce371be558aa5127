// What a world keeps beside its ledger and its books: registers, links, packets and heights.
#![tactic(auto)]

mod denominations;
mod lanes;
mod links;
mod packets;
mod rows;
mod tables;
mod types;
mod walk;

pub use links::lowest_unused;
pub use types::{
    Denominations, Effect, End, Event, Link, Links, Packet, Packets, Route, Rows, Standing, Tables,
    Tokens,
};
