ghost use Rattle.std.specs.Prelude.{◌≡◌};
ghost use Rattle.layers.specs.Layers.{beside as side_by_side};
ghost use Rattle.layers.specs.Laws.{beside_lawful, beside_unserved};
ghost use Rattle.layers.specs.Sides.{OnSide};

use ledger::{Confined, Ledger, chain_within};
use protocol::LedgerFault;

// At most so many chains are served.
const MOST: usize = 256;

/// Two ledgers side by side: the second's chains are numbered after the first's.
#[derive(Drop)]
pub struct Beside<L: Ledger, R: Ledger> {
    first: L,
    second: R,
}

// One of the two, and its own number of a chain. No `Result`: neither side is a failure. Each call matches on it: the ledgers are of two types, so that one closure
// cannot call either, and a `dyn` of one may not be handed out.
#[derive(Clone, Copy)]
pub(crate) enum Side {
    First(usize),
    Second(usize),
}

impl<L: Ledger, R: Ledger> Beside<L, R> {
    /// Puts two ledgers side by side, as they are.
    pub fn new(first: L, second: R) -> Beside<L, R>
        ensures { side_by_side (L.Ledger.meaning result.first) (R.Ledger.meaning result.second) ≡ side_by_side (L.Ledger.meaning first) (R.Ledger.meaning second) }
    {
        Beside { first, second }
    }

    // Where a chain is served, and as which.
    fn side(&self, chain: usize) -> Result<Side, LedgerFault>
        ensures { OnSide (L.Ledger.meaning self.now.first).chains chain result }
    {
        chain_within(MOST, chain)?;
        let first = self.first.chains();
        if chain < first {
            Ok(Side::First(chain))
        } else {
            Ok(Side::Second(chain - first))
        }
    }
}

impl<L: Ledger, R: Ledger> Ledger for Beside<L, R> {
    ghost meaning = { λ b. side_by_side (L.Ledger.meaning b.first) (R.Ledger.meaning b.second) };

    ghost lawful = { λ b. beside_lawful (L.Ledger.meaning b.first) (R.Ledger.meaning b.second) (L.Ledger.lawful b.first) (R.Ledger.lawful b.second) };

    fn chains(&self) -> usize {
        MOST.min(self.first.chains().saturating_add(self.second.chains()))
    }

    fn balance(
        &self,
        chain: usize,
        account: usize,
        denomination: usize,
    ) -> Result<u64, LedgerFault> {
        match self.side(chain)? {
            Side::First(chain) => self.first.balance(chain, account, denomination),
            Side::Second(chain) => self.second.balance(chain, account, denomination),
        }
    }

    fn supply(&self, chain: usize, denomination: usize) -> Result<u64, LedgerFault> {
        match self.side(chain)? {
            Side::First(chain) => self.first.supply(chain, denomination),
            Side::Second(chain) => self.second.supply(chain, denomination),
        }
    }

    fn users_hold(&self, chain: usize, denomination: usize) -> Result<u64, LedgerFault> {
        match self.side(chain)? {
            Side::First(chain) => self.first.users_hold(chain, denomination),
            Side::Second(chain) => self.second.users_hold(chain, denomination),
        }
    }

    fn is_barred(&self, chain: usize, user: usize) -> Result<bool, LedgerFault> {
        match self.side(chain)? {
            Side::First(chain) => self.first.is_barred(chain, user),
            Side::Second(chain) => self.second.is_barred(chain, user),
        }
    }

    fn serves_bars(&self, chain: usize) -> Result<bool, LedgerFault> {
        match self.side(chain)? {
            Side::First(chain) => self.first.serves_bars(chain),
            Side::Second(chain) => self.second.serves_bars(chain),
        }
    }

    fn credit(
        &mut self,
        chain: usize,
        account: usize,
        denomination: usize,
        amount: u64,
    ) -> Result<(), LedgerFault> {
        match self.side(chain)? {
            Side::First(chain) => self.first.credit(chain, account, denomination, amount),
            Side::Second(chain) => self.second.credit(chain, account, denomination, amount),
        }
    }

    fn debit(
        &mut self,
        chain: usize,
        account: usize,
        denomination: usize,
        amount: u64,
    ) -> Result<(), LedgerFault> {
        match self.side(chain)? {
            Side::First(chain) => self.first.debit(chain, account, denomination, amount),
            Side::Second(chain) => self.second.debit(chain, account, denomination, amount),
        }
    }

    fn transfer(
        &mut self,
        chain: usize,
        from: usize,
        to: usize,
        denomination: usize,
        amount: u64,
    ) -> Result<(), LedgerFault> {
        match self.side(chain)? {
            Side::First(chain) => self.first.transfer(chain, from, to, denomination, amount),
            Side::Second(chain) => self.second.transfer(chain, from, to, denomination, amount),
        }
    }

    fn bar(&mut self, chain: usize, user: usize) -> Result<(), LedgerFault> {
        match self.side(chain)? {
            Side::First(chain) => self.first.bar(chain, user),
            Side::Second(chain) => self.second.bar(chain, user),
        }
    }

    fn unbar(&mut self, chain: usize, user: usize) -> Result<(), LedgerFault> {
        match self.side(chain)? {
            Side::First(chain) => self.first.unbar(chain, user),
            Side::Second(chain) => self.second.unbar(chain, user),
        }
    }

    fn clear(&mut self) {
        self.first.clear();
        self.second.clear();
    }
}

impl<L: Confined, R: Confined> Confined for Beside<L, R> {
    ghost unserved = { λ b. beside_unserved (L.Ledger.meaning b.first) (R.Ledger.meaning b.second) (L.Confined.unserved b.first) (R.Confined.unserved b.second) };
}
