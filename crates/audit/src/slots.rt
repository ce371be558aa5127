// Where a line of an audit may stand.
use denom::Denomination;
use tables::Route;

// The counts; a token by its number; or a denomination by its number at the end that a lane leads from.
#[derive(Clone, Copy)]
pub(crate) enum Slot {
    Counts,
    Token(usize),
    Escrow { lane: usize, number: usize },
}

// What there is in escrow of a denomination at the end that a route leads from.
#[derive(Clone, Copy)]
pub(crate) struct Entry {
    pub(crate) route: Route,
    pub(crate) denomination: Denomination,
    pub(crate) escrow: u64,
}
