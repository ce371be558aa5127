// The counts of the house, for the code of every crate; specs/House.antt has the same for its definitions.
ghost use Rattle.std.specs.Prelude.{◌≡◌, ◌<◌};
ghost use Rattle.protocol.specs.House.{accounts, chains_most, channels_most, denoms_most, escrow_account, hops_most, lanes_most, line_room, links_most, packets_most, tokens_most, users};

/// A world's chains are 0 to 7.
pub const CHAINS: usize = 8;
/// Links over a world's life.
pub const LINKS: usize = 16;
/// Packets over a world's life.
pub const PACKETS: usize = 512;
/// Tokens over a world's life.
pub const TOKENS: usize = 64;
/// A chain's channels are 0 to 7.
pub const CHANNELS: usize = 8;
/// A chain's denominations are 0 to 31.
pub const DENOMINATIONS: usize = 32;
/// A chain's users are its accounts 0 to 15.
pub const USERS: usize = 16;
/// Users and, behind them, an escrow account for each channel.
pub const ACCOUNTS: usize = USERS + CHANNELS;
/// A trace's hops.
pub const HOPS: usize = 6;
/// Lanes, two for each link.
pub const LANES: usize = 2 * LINKS;
/// The bytes of buffer that a line of the audit asks for.
pub const LINE_ROOM: usize = 256;

/// The escrow account of a channel.
pub fn escrow_account(channel: usize) -> usize
    requires { channel < channels_most }
    ensures { result ≡ escrow_account channel }
{
    USERS + channel
}

/// These counts are those of the definitions.
pub fn counts_agree()
    ensures chains { CHAINS ≡ chains_most }
    ensures links { LINKS ≡ links_most }
    ensures packets { PACKETS ≡ packets_most }
    ensures tokens { TOKENS ≡ tokens_most }
    ensures channels { CHANNELS ≡ channels_most }
    ensures denominations { DENOMINATIONS ≡ denoms_most }
    ensures users { USERS ≡ users }
    ensures accounts { ACCOUNTS ≡ accounts }
    ensures hops { HOPS ≡ hops_most }
    ensures lanes { LANES ≡ lanes_most }
    ensures room { LINE_ROOM ≡ line_room }
{}
