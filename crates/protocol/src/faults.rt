// Why a call is refused: an enum for each layer, the climb from one to the next, and each fault's number and layer. The numbers
// are given in specs/Faults.antt.
ghost use Rattle.std.specs.Prelude.{◌≡◌};
ghost use Rattle.protocol.specs.declared.faults.WorldFault.TheVariants.{Ledger, Book};
ghost use Rattle.protocol.specs.declared.faults.Fault.TheVariants.{Script, World, Audit};
ghost use Rattle.protocol.specs.Faults.{ledger_number, book_number, world_number, script_number, audit_number, fault_number, layer_of};

/// Why a ledger refuses.
#[derive(Clone, Copy, PartialEq, Eq, Debug)]
pub enum LedgerFault {
    ChainNotServed,
    NoSuchAccount,
    ZeroAmount,
    NoSuchDenomination,
    ServesNoBars,
    AccountBarred,
    BalanceTooSmall,
    SupplyTooLarge,
}

/// Why a book of receipt refuses to take a mark.
#[derive(Clone, Copy, PartialEq, Eq, Debug)]
pub enum BookFault {
    NoSuchLane,
    NoSuchSequence,
    AlreadyMarked,
    LowerUnmarked,
}

/// Why a world refuses a call: for its ledger's reason, for its book's, or for one of its own.
#[derive(Clone, Copy, Debug)]
pub enum WorldFault {
    Ledger(LedgerFault),
    Book(BookFault),
    NoSuchChain,
    SameChain,
    LinksExhausted,
    ChannelsExhausted,
    ChannelNotInUse,
    NoSuchLink,
    NoSuchUser,
    AmountOrStepZero,
    NotRegistered,
    HasHops,
    LinkClosed,
    TimeoutTooLow,
    NoSuchPacket,
    NotStanding,
    PacketExpired,
    NotExpired,
    PacketsExhausted,
    RegisterFull,
    HeightTooLarge,
    NotMarked,
    Marked,
    LowerStands,
    /// The ledger refused the refund.
    RefundRefused(LedgerFault),
}

/// Why a line of the audit is not written.
#[derive(Clone, Copy)]
pub enum AuditFault {
    BufferTooSmall,
    NoSuchLine,
}

/// Why a line of a script is no call.
#[derive(Clone, Copy)]
pub enum ScriptFault {
    ScriptTooLong,
    LineTooLong,
    BadByteOrSpace,
    UnknownCommand,
    WrongNumberOfWords,
    BadWord,
}

/// A fault of any layer, with its cause.
#[derive(Clone, Copy)]
pub enum Fault {
    Script(ScriptFault),
    World(WorldFault),
    Audit(AuditFault),
}

/// The layer that answers for a fault.
#[derive(Clone, Copy, PartialEq, Eq)]
pub enum Layer {
    Script,
    Book,
    Ledger,
    World,
}

impl From<LedgerFault> for WorldFault {
    ghost from_gives = { λ f r. r ≡ Ledger f };

    fn from(cause: LedgerFault) -> WorldFault {
        WorldFault::Ledger(cause)
    }
}

impl From<BookFault> for WorldFault {
    ghost from_gives = { λ f r. r ≡ Book f };

    fn from(cause: BookFault) -> WorldFault {
        WorldFault::Book(cause)
    }
}

impl From<ScriptFault> for Fault {
    ghost from_gives = { λ f r. r ≡ Script f };

    fn from(cause: ScriptFault) -> Fault {
        Fault::Script(cause)
    }
}

impl From<WorldFault> for Fault {
    ghost from_gives = { λ f r. r ≡ World f };

    fn from(cause: WorldFault) -> Fault {
        Fault::World(cause)
    }
}

impl From<AuditFault> for Fault {
    ghost from_gives = { λ f r. r ≡ Audit f };

    fn from(cause: AuditFault) -> Fault {
        Fault::Audit(cause)
    }
}

// Methods, and no discriminants nor `From`: script faults share a number, world faults carry a cause, and a bare `into` would not
// say that a number of refusal is meant.

impl LedgerFault {
    /// The number of this refusal.
    pub fn number(self) -> u8
        ensures { result ≡ ledger_number self }
    {
        match self {
            LedgerFault::ChainNotServed => 6,
            LedgerFault::NoSuchAccount => 12,
            LedgerFault::ZeroAmount => 13,
            LedgerFault::NoSuchDenomination => 14,
            LedgerFault::ServesNoBars => 30,
            LedgerFault::AccountBarred => 31,
            LedgerFault::BalanceTooSmall => 32,
            LedgerFault::SupplyTooLarge => 33,
        }
    }
}

impl BookFault {
    /// The number of this refusal.
    pub fn number(self) -> u8
        ensures { result ≡ book_number self }
    {
        match self {
            BookFault::NoSuchLane => 11,
            BookFault::NoSuchSequence => 18,
            BookFault::AlreadyMarked => 25,
            BookFault::LowerUnmarked => 26,
        }
    }
}

impl WorldFault {
    /// The number of this refusal: of its cause, if that lies with the ledger or the book.
    pub fn number(self) -> u8
        ensures { result ≡ world_number self }
    {
        match self {
            WorldFault::Ledger(fault) => fault.number(),
            WorldFault::Book(fault) => fault.number(),
            WorldFault::NoSuchChain => 6,
            WorldFault::SameChain => 7,
            WorldFault::LinksExhausted => 8,
            WorldFault::ChannelsExhausted => 9,
            WorldFault::ChannelNotInUse => 10,
            WorldFault::NoSuchLink => 11,
            WorldFault::NoSuchUser => 12,
            WorldFault::AmountOrStepZero => 13,
            WorldFault::NotRegistered => 14,
            WorldFault::HasHops => 15,
            WorldFault::LinkClosed => 16,
            WorldFault::TimeoutTooLow => 17,
            WorldFault::NoSuchPacket => 18,
            WorldFault::NotStanding => 19,
            WorldFault::PacketExpired => 20,
            WorldFault::NotExpired => 21,
            WorldFault::PacketsExhausted => 22,
            WorldFault::RegisterFull => 23,
            WorldFault::HeightTooLarge => 24,
            WorldFault::NotMarked => 27,
            WorldFault::Marked => 28,
            WorldFault::LowerStands => 29,
            WorldFault::RefundRefused(_) => 34,
        }
    }
}

impl AuditFault {
    /// The number of this refusal.
    pub fn number(self) -> u8
        ensures { result ≡ audit_number self }
    {
        match self {
            AuditFault::BufferTooSmall => 35,
            AuditFault::NoSuchLine => 36,
        }
    }
}

impl ScriptFault {
    /// The number of this refusal.
    pub fn number(self) -> u8
        ensures { result ≡ script_number self }
    {
        match self {
            ScriptFault::ScriptTooLong => 1,
            ScriptFault::LineTooLong => 1,
            ScriptFault::BadByteOrSpace => 2,
            ScriptFault::UnknownCommand => 3,
            ScriptFault::WrongNumberOfWords => 4,
            ScriptFault::BadWord => 5,
        }
    }
}

impl Fault {
    /// The number of this refusal, which is that of its cause.
    pub fn number(self) -> u8
        ensures { result ≡ fault_number self }
    {
        match self {
            Fault::Script(fault) => fault.number(),
            Fault::World(fault) => fault.number(),
            Fault::Audit(fault) => fault.number(),
        }
    }

    /// The layer that answers for it, which follows from the number alone.
    pub fn layer(self) -> Layer
        ensures { result ≡ layer_of (fault_number self) }
    {
        match self.number() {
            1..=5 => Layer::Script,
            25..=28 => Layer::Book,
            30..=34 => Layer::Ledger,
            _ => Layer::World,
        }
    }
}
