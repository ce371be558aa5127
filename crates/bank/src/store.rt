ghost use Rattle.std.specs.Prelude.{◌≡◌, ℕ, ◌+◌, ◌*◌, ◌<◌, ◌≤◌, List, Option, IfSome};
ghost use Rattle.sums.specs.Sums.{sum_below};
ghost use Rattle.protocol.specs.Faults.{told_by, ledger_number};
ghost use Rattle.protocol.specs.House.{most};
ghost use Rattle.protocol.specs.Ledger.{Balances, supply as supply_of, put as balance-put, credited, debited};
ghost use Rattle.protocol.specs.Refusals.{answer_unless, left_by};
ghost use Rattle.ledger.specs.Taking.{take_refusals};
ghost use Rattle.bank.specs.OneChain.{Kept, chains_kept};

use protocol::{DENOMINATIONS, LedgerFault};

/// Whose balance of what: an account and a denomination that a chain has.
#[derive(Clone, Copy, PartialEq, Eq)]
pub struct Holding {
    pub account: usize,
    pub denomination: usize,
    ghost account_known: { account < 24 },
    ghost denomination_known: { denomination < 32 },
}

impl Holding {
    pub(crate) fn of(account: usize, denomination: usize) -> Holding
        requires account { account < 24 }
        requires denomination { denomination < 32 }
        ensures account { result.account ≡ account }
        ensures denomination { result.denomination ≡ denomination }
    {
        Holding {
            account,
            denomination,
        }
    }

    /// Its place among all holdings, one account's 32 denominations after another's.
    pub fn place(self) -> usize
        ensures { result ≡ self.account * 32 + self.denomination }
    {
        self.account * DENOMINATIONS + self.denomination
    }
}

/// What keeps the balances of a bank's one chain, on memory that is handed to it.
pub trait Store {
    /// What the memory is made of.
    type Unit;

    // How many chains a memory is enough for: one, or none.
    ghost room: { List Self.Unit → ℕ };

    ghost balances: { Self → Balances };

    // No supply passes 2^64 - 1, and no other chain has a balance.
    ghost kept: { (s : Self) → Kept (balances s) };

    /// An empty store on a memory that is large enough.
    fn over(memory: Vec<Self::Unit>) -> Option<Self>
        ensures chains { chains_kept result ≡ room memory.items }
        ensures empty { IfSome result (λ s. balances s ≡ (λ _ _ _. 0)) };

    /// A balance.
    fn at(&self, holding: Holding) -> u64
        ensures { result ≡ balances self.now 0 holding.account holding.denomination };

    /// What the first `accounts` accounts have. Each store adds up its own rows: one method for all would ask of their rows what
    /// this asks of the sum.
    fn sum_of(&self, accounts: usize, denomination: usize) -> u64
        requires accounts { accounts ≤ 24 }
        requires denomination { denomination < 32 }
        ensures { result ≡ sum_below accounts (λ a. balances self.now 0 a denomination) };

    /// Adds to a balance where the supply has room for it.
    fn give(&mut self, holding: Holding, amount: u64)
        requires some { 0 < amount }
        requires fits { supply_of (balances self.old) 0 holding.denomination + amount ≤ most }
        ensures { balances self.new ≡ credited (balances self.old) 0 holding.account holding.denomination amount };

    /// Leaves so much of a balance, which is no more than there is.
    fn leave(&mut self, holding: Holding, rest: u64)
        requires { rest ≤ balances self.old 0 holding.account holding.denomination }
        ensures { balances self.new ≡ balance-put (balances self.old) 0 holding.account holding.denomination rest };

    /// Takes from a balance that is large enough.
    fn take(&mut self, holding: Holding, amount: u64) -> Result<(), LedgerFault>
        ensures answer { told_by ledger_number result ≡ answer_unless (take_refusals (balances self.old) 0 holding.account holding.denomination amount) tt }
        ensures after { balances self.new ≡ left_by result (balances self.old) (debited (balances self.old) 0 holding.account holding.denomination amount) }
    {
        let old = self.at(holding);
        let rest = old.checked_sub(amount).ok_or(LedgerFault::BalanceTooSmall)?;
        self.leave(holding, rest);
        Ok(())
    }

    /// Empties all balances.
    fn clear(&mut self)
        ensures { balances self.new ≡ (λ _ _ _. 0) };
}
