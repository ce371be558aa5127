ghost use Rattle.std.specs.Prelude.{◌≡◌, ◌<◌, ◌≤◌, ⊤};

use denom::{Denomination, TokenId};
use protocol::{CHAINS, DENOMINATIONS, LINKS, LinkKind, PACKETS, TOKENS};
use std::alloc::AllocError;

/// An end of a link: a channel 0 to 7 of a chain 0 to 7.
#[derive(Clone, Copy)]
pub struct End {
    pub chain: usize,
    pub channel: usize,
    ghost chains: { chain < 8 },
    ghost channels: { channel < 8 },
}

/// Two ends, the kind of the link between them, and whether it has been closed.
#[derive(Clone, Copy)]
pub struct Link {
    pub first: End,
    pub second: End,
    pub kind: LinkKind,
    pub closed: bool,
}

/// Whether a packet still waits for its acknowledgement or its timeout.
#[derive(Clone, Copy, PartialEq, Eq, Debug)]
pub enum Standing {
    Ended,
    Stands,
}

/// A packet as it was sent, and its standing. Sequences are 1 to 512.
#[derive(Clone, Copy)]
pub struct Packet {
    pub lane: usize,
    pub sequence: usize,
    pub sender: usize,
    pub receiver: usize,
    pub denomination: Denomination,
    pub amount: u64,
    pub timeout: u64,
    pub standing: Standing,
    ghost first: { 1 ≤ sequence },
    ghost last: { sequence ≤ 512 },
}

/// What comes to a packet, with what the rest of the world says of it: whether its timeout height is reached, and whether a
/// lower packet of a strict lane stands before it.
#[derive(Clone, Copy)]
pub enum Event {
    Receipt { expired: bool },
    Acknowledgement { blocked: bool },
    Timeout { expired: bool },
}

/// What an event comes to that a packet admits.
#[derive(Clone, Copy)]
pub enum Effect {
    Arrives,
    Ends,
    EndsWithRefund,
}

/// One direction of an opened link: its lane, the ends that it leads from and to, and the link's kind and whether it is closed.
#[derive(Clone, Copy)]
pub struct Route {
    pub link: usize,
    pub lane: usize,
    pub near: End,
    pub far: End,
    pub kind: LinkKind,
    pub closed: bool,
}

// The count stands beside the places: no call has a refusal for want of memory, so no table may grow. `Copy` and `Clone` by hand:
// a derive is refused over the ghost field of a generic struct. No `Model`: a copied one would have to give its free places back.

/// Rows in order of arrival, in places of which the first are taken.
pub struct Rows<T: Copy, const N: usize> {
    pub(crate) places: [T; N],
    pub(crate) count: usize,
    ghost few: { count ≤ N },
}

impl<T: Copy, const N: usize> Copy for Rows<T, N> {}

impl<T: Copy, const N: usize> Clone for Rows<T, N> {
    ghost is_clone = { λ r copy. copy ≡ r };

    ghost is_infallible = { λ _. ⊤ };

    fn clone(&self) -> Result<Rows<T, N>, AllocError> {
        Ok(*self)
    }
}

/// A chain's denominations in order of registration.
pub type Denominations = Rows<Denomination, DENOMINATIONS>;

/// The world's tokens in order of registration.
pub type Tokens = Rows<TokenId, TOKENS>;

/// The links in the order in which they were opened.
pub type Links = Rows<Link, LINKS>;

/// The packets in the order in which they were sent.
pub type Packets = Rows<Packet, PACKETS>;

/// What a world keeps beside its ledger and its books.
#[derive(Clone, Copy)]
pub struct Tables {
    pub denominations: [Denominations; CHAINS],
    pub tokens: Tokens,
    pub links: Links,
    pub packets: Packets,
    pub heights: [u64; CHAINS],
}
