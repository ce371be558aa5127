ghost use Rattle.std.specs.Prelude.{◌≡◌, ℕ, false, [], slice_index};
ghost use Rattle.tables.specs.View.{denoms_of, tokens_in, links_in, closed_in, packets_in};

use super::types::{End, Link, Packet, Rows, Standing, Tables};
use denom::{Denomination, TokenId};
use protocol::{CHAINS, LinkKind};

impl Tables {
    /// No key, no link and no packet, and all heights 0.
    pub fn empty() -> Tables
        ensures denominations { (c : ℕ) → denoms_of result.denominations c ≡ [] }
        ensures tokens { tokens_in result.tokens ≡ [] }
        ensures links { links_in result.links ≡ [] }
        ensures closed { (i : ℕ) → closed_in result.links i ≡ false }
        ensures packets { packets_in result.packets ≡ [] }
        ensures heights { (c : ℕ) → slice_index result.heights c ≡ 0 }
    {
        let blank = Denomination::blank();
        let nowhere = End {
            chain: 0,
            channel: 0,
        };
        Tables {
            denominations: [Rows::none(blank); CHAINS],
            tokens: Rows::none(TokenId {
                chain: 0,
                symbol: blank.symbol,
            }),
            links: Rows::none(Link {
                first: nowhere,
                second: nowhere,
                kind: LinkKind::Free,
                closed: false,
            }),
            packets: Rows::none(Packet {
                lane: 0,
                sequence: 1,
                sender: 0,
                receiver: 0,
                denomination: blank,
                amount: 0,
                timeout: 0,
                standing: Standing::Ended,
            }),
            heights: [0; CHAINS],
        }
    }
}
