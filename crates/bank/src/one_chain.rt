ghost use Rattle.std.specs.Prelude.{◌≡◌, ℕ, ◌<◌};
ghost use Rattle.ledger.specs.Empty.{empty};
ghost use Rattle.bank.specs.OneChain.{bank_meaning, bank_lawful, bank_unserved};

use crate::store::{Holding, Store};
use ledger::{
    Confined, Ledger, balance_within, chain_within, move_within, total_within, user_within, within,
};
use protocol::{ACCOUNTS, LedgerFault, USERS};

/// A bank that serves one chain, without bars, over what keeps its balances; over too little memory it serves none.
#[derive(Drop)]
pub struct Bank<S: Store> {
    store: Option<S>,
}

impl<S: Store> Bank<S> {
    /// An empty bank on a memory.
    pub fn new(memory: Vec<S::Unit>) -> Bank<S>
        ensures { bank_meaning S.Store.balances result.store ≡ empty (S.Store.room memory.items) }
    {
        Bank {
            store: S::over(memory),
        }
    }
}

impl<S: Store> Ledger for Bank<S> {
    ghost meaning = { λ b. bank_meaning S.Store.balances b.store };

    ghost lawful = { λ b. bank_lawful S.Store.balances S.Store.kept b.store };

    fn chains(&self) -> usize {
        usize::from(self.store.is_some())
    }

    fn balance(
        &self,
        chain: usize,
        account: usize,
        denomination: usize,
    ) -> Result<u64, LedgerFault> {
        balance_within(self.chains(), chain, account, denomination)?;
        let store = self.store.as_ref().ok_or(LedgerFault::ChainNotServed)?;
        Ok(store.at(Holding::of(account, denomination)))
    }

    fn supply(&self, chain: usize, denomination: usize) -> Result<u64, LedgerFault> {
        total_within(self.chains(), chain, denomination)?;
        let store = self.store.as_ref().ok_or(LedgerFault::ChainNotServed)?;
        Ok(store.sum_of(ACCOUNTS, denomination))
    }

    fn users_hold(&self, chain: usize, denomination: usize) -> Result<u64, LedgerFault> {
        total_within(self.chains(), chain, denomination)?;
        let store = self.store.as_ref().ok_or(LedgerFault::ChainNotServed)?;
        Ok(store.sum_of(USERS, denomination))
    }

    fn is_barred(&self, chain: usize, user: usize) -> Result<bool, LedgerFault> {
        user_within(self.chains(), chain, user)?;
        Ok(false)
    }

    fn serves_bars(&self, chain: usize) -> Result<bool, LedgerFault> {
        chain_within(self.chains(), chain)?;
        Ok(false)
    }

    fn credit(
        &mut self,
        chain: usize,
        account: usize,
        denomination: usize,
        amount: u64,
    ) -> Result<(), LedgerFault> {
        within(self.chains(), chain, account, amount, denomination)?;
        let store = self.store.as_mut().ok_or(LedgerFault::ChainNotServed)?;
        if amount > u64::MAX - store.sum_of(ACCOUNTS, denomination) {
            return Err(LedgerFault::SupplyTooLarge);
        }
        store.give(Holding::of(account, denomination), amount);
        Ok(())
    }

    fn debit(
        &mut self,
        chain: usize,
        account: usize,
        denomination: usize,
        amount: u64,
    ) -> Result<(), LedgerFault> {
        within(self.chains(), chain, account, amount, denomination)?;
        let store = self.store.as_mut().ok_or(LedgerFault::ChainNotServed)?;
        store.take(Holding::of(account, denomination), amount)
    }

    fn transfer(
        &mut self,
        chain: usize,
        from: usize,
        to: usize,
        denomination: usize,
        amount: u64,
    ) -> Result<(), LedgerFault> {
        move_within(self.chains(), chain, from, to, amount, denomination)?;
        let store = self.store.as_mut().ok_or(LedgerFault::ChainNotServed)?;
        store.take(Holding::of(from, denomination), amount)?;
        store.give(Holding::of(to, denomination), amount);
        Ok(())
    }

    fn bar(&mut self, chain: usize, user: usize) -> Result<(), LedgerFault> {
        self.is_barred(chain, user)?;
        Err(LedgerFault::ServesNoBars)
    }

    fn unbar(&mut self, chain: usize, user: usize) -> Result<(), LedgerFault> {
        self.bar(chain, user)
    }

    fn clear(&mut self) {
        if let Some(store) = &mut self.store {
            store.clear();
        }
    }
}

impl<S: Store> Confined for Bank<S> {
    ghost unserved = { λ b c a d _ h. bank_unserved S.Store.balances S.Store.kept b.store c a d h };
}
