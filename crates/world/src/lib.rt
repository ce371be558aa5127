// A world over any ledger and any two books, and every call on it.
#![tactic(auto)]

mod accounts;
mod home;
mod questions;
mod receipts;
mod receive;
mod registers;
mod send;
mod settle;
mod world;

pub use tables::{Denominations, End, Link, Links, Packet, Packets, Standing, Tables, Tokens};
pub use world::World;
