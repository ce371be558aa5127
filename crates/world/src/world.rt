ghost use Rattle.std.specs.Prelude.{◌≡◌};
ghost use Rattle.protocol.specs.Calls.{step, said, served};
ghost use Rattle.protocol.specs.Calls.Answer.{done, says};
ghost use Rattle.protocol.specs.Calls.Call.{open_link, tick};
ghost use Rattle.protocol.specs.Faults.{world_number};
ghost use Rattle.protocol.specs.World.{made, is_strict};
ghost use Rattle.world.specs.View.{view, two_books};

use books::Book;
use ledger::Ledger;
use protocol::{CHAINS, LINKS, LinkKind, WorldFault};
use tables::{End, Link, Tables, lowest_unused};

// No `Model`: a model's value is data, and the world that this one stands for has functions, its balances and marks.

/// A world over a ledger and two books, one for free links and one for strict ones.
#[derive(Drop)]
pub struct World<L: Ledger, F: Book, S: Book> {
    pub(crate) ledger: L,
    pub(crate) free: F,
    pub(crate) strict: S,
    pub(crate) tables: Tables,
}

impl<L: Ledger, F: Book, S: Book> World<L, F, S> {
    /// A world over a ledger and two books, which it clears: there is no link, packet or key, and heights are 0.
    pub fn new(mut ledger: L, mut free: F, mut strict: S) -> World<L, F, S>
        ensures { view L.meaning F.meaning S.meaning result ≡ made (L.meaning ledger) (two_books (F.meaning free) (S.meaning strict)) }
    {
        ledger.clear();
        free.clear();
        strict.clear();
        World {
            ledger,
            free,
            strict,
            tables: Tables::empty(),
        }
    }

    // Whether the ledger serves a chain and a world has it.
    pub(crate) fn serves(&self, chain: usize) -> bool
        ensures { result ≡ served (view L.meaning F.meaning S.meaning self.now) chain }
    {
        chain < self.ledger.chains() && chain < CHAINS
    }

    /// Opens a link between two chains, end 0 at the first and end 1 at the second, by the lowest unused channel of each, and
    /// answers its number.
    pub fn open(&mut self, first: usize, second: usize, kind: LinkKind) -> Result<usize, WorldFault>
        ensures answer { said says world_number result ≡ (step (view L.meaning F.meaning S.meaning self.old) (open_link first second (is_strict kind))).1 }
        ensures after { view L.meaning F.meaning S.meaning self.new ≡ (step (view L.meaning F.meaning S.meaning self.old) (open_link first second (is_strict kind))).0 }
    {
        if !self.serves(first) || !self.serves(second) {
            return Err(WorldFault::NoSuchChain);
        }
        if first == second {
            return Err(WorldFault::SameChain);
        }
        let number = self.tables.links.len();
        if number >= LINKS {
            return Err(WorldFault::LinksExhausted);
        }
        let near = lowest_unused(self.tables.links.as_slice(), first).ok_or(
            WorldFault::ChannelsExhausted,
        )?;
        let far = lowest_unused(self.tables.links.as_slice(), second).ok_or(
            WorldFault::ChannelsExhausted,
        )?;
        self.tables.links.push(Link {
            first: End {
                chain: first,
                channel: near,
            },
            second: End {
                chain: second,
                channel: far,
            },
            kind,
            closed: false,
        });
        Ok(number)
    }

    /// Raises a chain's height.
    pub fn tick(&mut self, chain: usize, by: u64) -> Result<(), WorldFault>
        ensures answer { said (λ _. done) world_number result ≡ (step (view L.meaning F.meaning S.meaning self.old) (tick chain by)).1 }
        ensures after { view L.meaning F.meaning S.meaning self.new ≡ (step (view L.meaning F.meaning S.meaning self.old) (tick chain by)).0 }
    {
        if !self.serves(chain) {
            return Err(WorldFault::NoSuchChain);
        }
        if by == 0 {
            return Err(WorldFault::AmountOrStepZero);
        }
        let height = self.tables.heights[chain]
            .checked_add(by)
            .ok_or(WorldFault::HeightTooLarge)?;
        self.tables.heights[chain] = height;
        Ok(())
    }
}
