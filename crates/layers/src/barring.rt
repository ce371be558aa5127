ghost use Rattle.std.specs.Prelude.{◌≡◌, ◌+◌, ◌*◌, ◌<◌, false, ◌&&◌, ◌||◌, replicate, nat_lt, slice_index_or};
ghost use Rattle.protocol.specs.House.{users};
ghost use Rattle.protocol.specs.Ledger.{bar_set, cleared};
ghost use Rattle.layers.specs.Layers.{barring as with-bars, barring_chains};
ghost use Rattle.layers.specs.Laws.{barring_lawful, barring_unserved};

use ledger::{Confined, Ledger, chain_within, move_within, within};
use protocol::{CHAINS, LedgerFault, USERS};

// A flag for each user of each chain that may be served.
const FLAGS: usize = CHAINS * USERS;

/// Bars over any ledger, on its first eight chains; a user is barred if this layer or the ledger below says so.
#[derive(Drop)]
pub struct Barring<L: Ledger> {
    ledger: L,
    flags: [bool; FLAGS],
}

impl<L: Ledger> Barring<L> {
    /// Bars over a ledger, as it is; nobody is barred by this layer yet.
    pub fn new(ledger: L) -> Barring<L>
        ensures { with-bars result.flags (L.Ledger.meaning result.ledger) ≡ with-bars (replicate 128 false) (L.Ledger.meaning ledger) }
    {
        Barring {
            ledger,
            flags: [false; FLAGS],
        }
    }

    // Says of a user what the ledger below says too, or says that the user is barred.
    fn set_flag(&mut self, chain: usize, user: usize, barred: bool)
        requires served { chain < barring_chains (L.Ledger.meaning self.old.ledger) }
        requires user { user < 16 }
        requires agrees { (barred || (L.Ledger.meaning self.old.ledger).barred chain user) ≡ barred }
        ensures { with-bars self.new.flags (L.Ledger.meaning self.new.ledger) ≡ bar_set (with-bars self.old.flags (L.Ledger.meaning self.old.ledger)) chain user barred }
    {
        self.flags[chain * USERS + user] = barred;
    }

    // Whether this layer bars the account; an escrow account is never barred.
    fn is_flagged(&self, chain: usize, account: usize) -> bool
        requires { chain < 8 }
        ensures { result ≡ (nat_lt account users && slice_index_or self.now.flags (chain * 16 + account) false) }
    {
        account < USERS && self.flags[chain * USERS + account]
    }

    // Lifts a user's bar below, where the ledger there serves bars; where it serves none, it has no bar.
    fn lift_below(&mut self, chain: usize, user: usize)
        requires served { chain < barring_chains (L.Ledger.meaning self.old.ledger) }
        requires user { user < 16 }
        ensures chains { (L.Ledger.meaning self.new.ledger).chains ≡ (L.Ledger.meaning self.old.ledger).chains }
        ensures lifted { (L.Ledger.meaning self.new.ledger).barred chain user ≡ false }
        ensures others { bar_set (with-bars self.new.flags (L.Ledger.meaning self.new.ledger)) chain user false ≡ bar_set (with-bars self.old.flags (L.Ledger.meaning self.old.ledger)) chain user false }
    {
        let _ = self.ledger.unbar(chain, user);
    }

    // Forgets the users that this layer bars: with the ledger below cleared, nothing is left.
    fn forget(&mut self)
        ensures below { self.new.ledger ≡ self.old.ledger }
        ensures after { with-bars self.new.flags (cleared (L.Ledger.meaning self.old.ledger)) ≡ cleared (with-bars self.old.flags (L.Ledger.meaning self.old.ledger)) }
    {
        self.flags = [false; FLAGS];
    }
}

impl<L: Ledger> Ledger for Barring<L> {
    ghost meaning = { λ b. with-bars b.flags (L.Ledger.meaning b.ledger) };

    ghost lawful = { λ b. barring_lawful b.flags (L.Ledger.meaning b.ledger) (L.Ledger.lawful b.ledger) };

    fn chains(&self) -> usize {
        CHAINS.min(self.ledger.chains())
    }

    fn balance(
        &self,
        chain: usize,
        account: usize,
        denomination: usize,
    ) -> Result<u64, LedgerFault> {
        chain_within(CHAINS, chain)?;
        self.ledger.balance(chain, account, denomination)
    }

    fn supply(&self, chain: usize, denomination: usize) -> Result<u64, LedgerFault> {
        chain_within(CHAINS, chain)?;
        self.ledger.supply(chain, denomination)
    }

    fn users_hold(&self, chain: usize, denomination: usize) -> Result<u64, LedgerFault> {
        chain_within(CHAINS, chain)?;
        self.ledger.users_hold(chain, denomination)
    }

    fn is_barred(&self, chain: usize, user: usize) -> Result<bool, LedgerFault> {
        chain_within(CHAINS, chain)?;
        let below = self.ledger.is_barred(chain, user)?;
        Ok(below || self.is_flagged(chain, user))
    }

    fn serves_bars(&self, chain: usize) -> Result<bool, LedgerFault> {
        chain_within(self.chains(), chain)?;
        Ok(true)
    }

    fn credit(
        &mut self,
        chain: usize,
        account: usize,
        denomination: usize,
        amount: u64,
    ) -> Result<(), LedgerFault> {
        chain_within(CHAINS, chain)?;
        self.ledger.credit(chain, account, denomination, amount)
    }

    fn debit(
        &mut self,
        chain: usize,
        account: usize,
        denomination: usize,
        amount: u64,
    ) -> Result<(), LedgerFault> {
        within(self.chains(), chain, account, amount, denomination)?;
        if self.is_flagged(chain, account) {
            return Err(LedgerFault::AccountBarred);
        }
        self.ledger.debit(chain, account, denomination, amount)
    }

    fn transfer(
        &mut self,
        chain: usize,
        from: usize,
        to: usize,
        denomination: usize,
        amount: u64,
    ) -> Result<(), LedgerFault> {
        move_within(self.chains(), chain, from, to, amount, denomination)?;
        if self.is_flagged(chain, from) {
            return Err(LedgerFault::AccountBarred);
        }
        self.ledger.transfer(chain, from, to, denomination, amount)
    }

    fn bar(&mut self, chain: usize, user: usize) -> Result<(), LedgerFault> {
        self.is_barred(chain, user)?;
        self.set_flag(chain, user, true);
        Ok(())
    }

    fn unbar(&mut self, chain: usize, user: usize) -> Result<(), LedgerFault> {
        self.is_barred(chain, user)?;
        self.lift_below(chain, user);
        self.set_flag(chain, user, false);
        Ok(())
    }

    fn clear(&mut self) {
        self.forget();
        self.ledger.clear();
    }
}

impl<L: Confined> Confined for Barring<L> {
    ghost unserved = { λ b. barring_unserved b.flags (L.Ledger.meaning b.ledger) (L.Confined.unserved b.ledger) };
}
