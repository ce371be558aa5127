ghost use Rattle.std.specs.Prelude.{◌≡◌};

use super::world::World;
use books::Book;
use ledger::Ledger;
use tables::Tables;

// What may be asked of a world by those who alter nothing.
impl<L: Ledger, F: Book, S: Book> World<L, F, S> {
    /// The ledger, to be asked.
    pub fn ledger(&self) -> &L
        ensures { result.now ≡ self.now.ledger }
    {
        &self.ledger
    }

    /// Registers, links, packets and heights, to be looked at.
    pub fn tables(&self) -> &Tables
        ensures { result.now ≡ self.now.tables }
    {
        &self.tables
    }
}
