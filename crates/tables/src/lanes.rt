ghost use Rattle.std.specs.Prelude.{◌≡◌, ℕ, ◌<◌, false, not, ◌&&◌, ◌||◌, length, MatchOption, ◌==◌, nat_le, slice_index};
ghost use Rattle.protocol.specs.World.{in_use};
ghost use Rattle.tables.specs.Routes.{is_lane, Leads, LeadsOut};
ghost use Rattle.tables.specs.View.{links_in, closed_in};

use super::links::lane_out;
use super::types::{Link, Links, Route, Tables};

impl Links {
    /// Direction 0 or 1 of a link, if it is there.
    pub fn route(&self, link: usize, direction: usize) -> Option<Route>
        ensures { MatchOption result (is_lane (links_in self.now) link direction ≡ false) (λ q. Leads (links_in self.now) (closed_in self.now) link direction q) }
    {
        let row = self.as_slice().get(link)?;
        match direction {
            0 => Some(Route {
                link,
                lane: 2 * link,
                near: row.first,
                far: row.second,
                kind: row.kind,
                closed: row.closed,
            }),
            1 => Some(Route {
                link,
                lane: 2 * link + 1,
                near: row.second,
                far: row.first,
                kind: row.kind,
                closed: row.closed,
            }),
            _ => None,
        }
    }

    /// The direction that leads out by a channel of a chain, if that channel is in use.
    pub fn route_out(&self, chain: usize, channel: usize) -> Option<Route>
        ensures { MatchOption result (in_use (links_in self.now) chain channel ≡ false) (λ q. LeadsOut (links_in self.now) (closed_in self.now) chain channel q) }
    {
        let lane = lane_out(self.as_slice(), chain, channel)?;
        self.route(lane / 2, lane % 2)
    }

    // The row is put back whole: what is written into an element of a generic table is not told to the proof.

    /// Closes a link.
    pub fn close(&mut self, link: usize)
        requires { link < length (links_in self.old) }
        ensures links { links_in self.new ≡ links_in self.old }
        ensures closed { (i : ℕ) → closed_in self.new i ≡ (closed_in self.old i || i == link) }
    {
        let row = self.at(link);
        self.put(
            link,
            Link {
                closed: true,
                ..row
            },
        );
    }
}

impl Tables {
    /// Whether a timeout height is not 0 nor above a chain's height.
    pub fn has_passed(&self, chain: usize, timeout: u64) -> bool
        ensures { result ≡ (not (timeout == 0) && nat_le timeout (slice_index self.now.heights chain)) }
    {
        timeout != 0
            && self
                .heights
                .get(chain)
                .is_some_and(|height| timeout <= *height)
    }
}
