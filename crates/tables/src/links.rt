ghost use Rattle.std.specs.Prelude.{◌≡◌, ◌<◌, not, map, MatchOption};
ghost use Rattle.register.specs.Keys.{number_of};
ghost use Rattle.protocol.specs.House.{channels_most};
ghost use Rattle.protocol.specs.World.{same_end, end_at, ends, in_use, lowest_unused as lowest};
ghost use Rattle.tables.specs.View.{end_view, link_view};

use super::types::{End, Link};
use protocol::CHANNELS;

impl End {
    // Whether this is a channel of a chain: two numbers of all sizes, which no `End` to compare with has.
    pub(crate) fn is(&self, chain: usize, channel: usize) -> bool
        ensures { result ≡ same_end (end_at chain channel) (end_view self.now) }
    {
        (self.chain, self.channel) == (chain, channel)
    }
}

// The lane that leads out by a channel of a chain, if that channel is in use.
pub(crate) fn lane_out(links: &[Link], chain: usize, channel: usize) -> Option<usize>
    ensures { result ≡ number_of (same_end (end_at chain channel)) (ends (map link_view links.now)) }
{
    for (i, link) in links.iter().enumerate() {
        if link.first.is(chain, channel) {
            return Some(2 * i);
        }
        if link.second.is(chain, channel) {
            return Some(2 * i + 1);
        }
    }
    None
}

// Whether a channel of a chain is not in use.
fn is_unused(links: &[Link], chain: usize, channel: usize) -> bool
    ensures { result ≡ not (in_use (map link_view links.now) chain channel) }
{
    lane_out(links, chain, channel).is_none()
}

/// A chain's lowest unused channel, or nothing where all are used.
pub fn lowest_unused(links: &[Link], chain: usize) -> Option<usize>
    ensures { MatchOption result (lowest (map link_view links.now) chain ≡ channels_most) (λ c. (c ≡ lowest (map link_view links.now) chain) × (c < channels_most)) }
{
    (0..CHANNELS).find(|channel| is_unused(links, chain, *channel))
}
