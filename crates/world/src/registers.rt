ghost use Rattle.std.specs.Prelude.{◌≡◌, ◌<◌, true, false, length, is_some};
ghost use Rattle.denom.specs.Views.{denom_view, token_view};
ghost use Rattle.protocol.specs.Calls.{enrolled, token_known, token_enrolled};
ghost use Rattle.tables.specs.Registers.{number_for};
ghost use Rattle.tables.specs.View.{denoms_of, tokens_in};
ghost use Rattle.world.specs.View.{view};

use super::world::World;
use books::Book;
use denom::{Denomination, TokenId};
use ledger::Ledger;

impl<L: Ledger, F: Book, S: Book> World<L, F, S> {
    // Registers a denomination on a chain, if it is new. The register is put back whole: what is written into an element of an array
    // of generic tables is not told to the proof.
    pub(crate) fn enrol(&mut self, chain: usize, denomination: &Denomination)
        requires chain { chain < 8 }
        requires room { is_some (number_for (denom_view denomination.now) (denoms_of self.old.tables.denominations chain)) ≡ true }
        ensures { view L.meaning F.meaning S.meaning self.new ≡ enrolled (view L.meaning F.meaning S.meaning self.old) chain (denom_view denomination.now) }
    {
        let mut row = self.tables.denominations[chain];
        let _ = row.enter(*denomination);
        self.tables.denominations[chain] = row;
    }

    // Registers a token, if it is new.
    pub(crate) fn enrol_token(&mut self, token: &TokenId)
        requires room { token_known (view L.meaning F.meaning S.meaning self.old) (token_view token.now) ≡ false → length (tokens_in self.old.tables.tokens) < 64 }
        ensures { view L.meaning F.meaning S.meaning self.new ≡ token_enrolled (view L.meaning F.meaning S.meaning self.old) (token_view token.now) }
    {
        let _ = self.tables.tokens.enter(*token);
    }
}
