ghost use Rattle.std.specs.Prelude.{◌≡◌, ℕ, ◌<◌, ◌≤◌, true, length, take, slice_index};
ghost use Rattle.denom.specs.Text.{is_symbol};

// A trace has at most six hops.
pub(crate) const MOST_HOPS: usize = 6;

// The length stands beside the bytes: no call has a refusal for want of memory, and these records are copied. Two types, as their
// bytes have laws of their own, and a derive is refused over the ghost field of a generic struct.

/// The hops of a denomination, the first hop first: at most six, each a channel 0 to 7.
#[derive(Clone, Copy)]
pub struct Hops {
    pub(crate) at: [u8; 6],
    pub(crate) count: usize,
    ghost six: { length at ≡ 6 },
    ghost few: { count ≤ 6 },
    ghost channels: { (i : ℕ) → slice_index at i < 8 },
}

/// A symbol: a letter a to z and then at most 15 letters or digits.
#[derive(Clone, Copy)]
pub struct Symbol {
    pub(crate) bytes: [u8; 16],
    pub(crate) len: usize,
    ghost room: { length bytes ≡ 16 },
    ghost few: { len ≤ 16 },
    ghost spelt: { is_symbol (take len bytes) ≡ true },
}

/// A denomination as a chain holds it.
#[derive(Clone, Copy, PartialEq, Eq)]
pub struct Denomination {
    pub hops: Hops,
    pub symbol: Symbol,
}

/// A token: the chain that issued it, and its symbol.
#[derive(Clone, Copy, Eq, PartialEq)]
pub struct TokenId {
    pub chain: usize,
    pub symbol: Symbol,
}

/// Why a text is refused.
#[derive(Clone, Copy, PartialEq, Eq, Debug)]
pub enum TextFault {
    NotASymbol,
    NotADenomination,
}
