ghost use Rattle.std.specs.Prelude.{◌≡◌};
ghost use Rattle.protocol.specs.Book.{mark_number};

/// What the receiving chain made of a packet.
#[derive(Clone, Copy, PartialEq, Eq, Debug)]
pub enum Mark {
    /// The receiver has the amount.
    Good,
    /// The voucher would have had seven hops.
    TooManyHops,
    /// The voucher was new and the chain's register was full.
    RegisterFull,
    /// The ledger refused.
    LedgerRefused,
}

impl Mark {
    /// The number of this mark.
    pub fn number(self) -> u8
        ensures { result ≡ mark_number self }
    {
        match self {
            Mark::Good => 1,
            Mark::TooManyHops => 2,
            Mark::RegisterFull => 3,
            Mark::LedgerRefused => 4,
        }
    }
}
