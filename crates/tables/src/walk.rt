ghost use Rattle.std.specs.Prelude.{◌≡◌};
ghost use Rattle.denom.specs.Views.{denom_view, symbol_of};
ghost use Rattle.protocol.specs.World.{to_end, lane_out, home_by};
ghost use Rattle.tables.specs.View.{links_in};

use super::types::Links;
use denom::{Denomination, Symbol};

impl Links {
    // The chain at the other end of a channel of a chain; 0 where the channel is not in use, as the walk home is defined.
    fn far_chain(&self, chain: usize, channel: usize) -> usize
        ensures { result ≡ (to_end (links_in self.now) (lane_out (links_in self.now) chain channel)).chain }
    {
        match self.route_out(chain, channel) {
            Some(route) => route.far.chain,
            None => 0,
        }
    }

    /// Follows the hops from chain to chain: the chain that they lead to, and the symbol.
    pub fn walk_home(&self, chain: usize, denomination: &Denomination) -> (usize, Symbol)
        ensures chain { result.0 ≡ home_by (links_in self.now) (denom_view denomination.now).hops chain }
        ensures symbol { symbol_of result.1 ≡ (denom_view denomination.now).symbol }
    {
        let mut here = chain;
        let hops = denomination.hops.as_slice();
        for hop in hops {
            here = self.far_chain(here, *hop as usize);
        }
        (here, denomination.symbol)
    }
}
