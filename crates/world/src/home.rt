ghost use Rattle.std.specs.Prelude.{◌≡◌};
ghost use Rattle.denom.specs.Views.{denom_view, symbol_of};
ghost use Rattle.protocol.specs.Calls.{step, said};
ghost use Rattle.protocol.specs.Calls.Answer.{home_is};
ghost use Rattle.protocol.specs.Calls.Call.{home as asks-home};
ghost use Rattle.protocol.specs.Faults.{world_number};
ghost use Rattle.world.specs.View.{view};

use super::world::World;
use books::Book;
use denom::{Denomination, Symbol};
use ledger::Ledger;
use protocol::WorldFault;

impl<L: Ledger, F: Book, S: Book> World<L, F, S> {
    /// The chain and the symbol of the token that a denomination stands for on a chain.
    pub fn home(
        &self,
        chain: usize,
        denomination: &Denomination,
    ) -> Result<(usize, Symbol), WorldFault>
        ensures answer { said (λ p. home_is (record { chain = p.0; symbol = symbol_of p.1 })) world_number result ≡ (step (view L.meaning F.meaning S.meaning self.now) (asks-home chain (denom_view denomination.now))).1 }
        ensures after { view L.meaning F.meaning S.meaning self.now ≡ (step (view L.meaning F.meaning S.meaning self.now) (asks-home chain (denom_view denomination.now))).0 }
    {
        if !self.serves(chain) {
            return Err(WorldFault::NoSuchChain);
        }
        if self.tables.number_of(chain, denomination).is_none() {
            return Err(WorldFault::NotRegistered);
        }
        Ok(self.tables.links.walk_home(chain, denomination))
    }
}
