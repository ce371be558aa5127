// The definitions of the whole model (specs/), its laws, and the faults, marks, requests and counts that the layers share.
#![tactic(auto)]

mod faults;
mod house;
mod laws;
mod link_kind;
mod marks;
mod requests;

pub use faults::{AuditFault, BookFault, Fault, Layer, LedgerFault, ScriptFault, WorldFault};
pub use house::{
    ACCOUNTS, CHAINS, CHANNELS, DENOMINATIONS, HOPS, LANES, LINE_ROOM, LINKS, PACKETS, TOKENS,
    USERS, counts_agree, escrow_account,
};
pub use laws::{bounded, conserved, known_outcomes, refusals_in_order, supply_is_accounted};
pub use link_kind::LinkKind;
pub use marks::Mark;
pub use requests::{PacketId, Transfer};
