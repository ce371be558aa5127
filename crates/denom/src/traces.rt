ghost use Rattle.std.specs.Prelude.{◌≡◌, ℕ, Bool, ◌||◌, leb, length, if◌then◌else◌, Some, None, ◌==◌, nat_le};
ghost use Rattle.std.specs.Option.{option_map};
ghost use Rattle.denom.specs.Denomination.{came_by, behind as behind_hop, stripped as without-hop, hopless as hopless-of};
ghost use Rattle.denom.specs.Views.{denom_view, symbol_of};

use super::types::{Denomination, Hops, MOST_HOPS, Symbol};

// A chain's channels are 0 to 7.
const CHANNELS: usize = 8;

impl Denomination {
    /// A symbol where it was issued.
    pub fn hopless(symbol: Symbol) -> Denomination
        ensures { denom_view result ≡ hopless-of (symbol_of symbol) }
    {
        Denomination {
            hops: Hops::none(),
            symbol,
        }
    }

    /// Whether it has no hops.
    pub fn is_hopless(&self) -> bool
        ensures { result ≡ (length (denom_view self.now).hops == 0) }
    {
        self.hops.as_slice().is_empty()
    }

    /// Whether it came in by a channel: whether that is its first hop.
    pub fn came_by(&self, channel: usize) -> bool
        ensures { result ≡ came_by channel (denom_view self.now) }
    {
        match self.hops.as_slice() {
            [] => false,
            [first, ..] => *first as usize == channel,
        }
    }

    /// The denomination behind one more hop, or nothing where that would make seven or the channel is above 7.
    pub fn behind(&self, channel: usize) -> Option<Denomination>
        ensures { option_map denom_view result ≡ (if leb 6 (length (denom_view self.now).hops) || nat_le 8 channel then None else Some (behind_hop channel (denom_view self.now))) }
    {
        let count = self.hops.count;
        if count >= MOST_HOPS || channel >= CHANNELS {
            return None;
        }
        let [first, second, third, fourth, fifth, _] = self.hops.at;
        let hops = Hops {
            at: [channel as u8, first, second, third, fourth, fifth],
            count: count + 1,
        };
        Some(Denomination {
            hops,
            symbol: self.symbol,
        })
    }

    /// The denomination with its first hop removed.
    pub fn stripped(&self) -> Denomination
        ensures { denom_view result ≡ without-hop (denom_view self.now) }
    {
        let [_, second, third, fourth, fifth, sixth] = self.hops.at;
        let hops = Hops {
            at: [second, third, fourth, fifth, sixth, 0],
            count: self.hops.count.saturating_sub(1),
        };
        Denomination {
            hops,
            symbol: self.symbol,
        }
    }
}
