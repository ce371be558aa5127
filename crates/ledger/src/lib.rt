// What every ledger does: a trait whose contracts say each answer, and what the ledger means afterwards, by its meaning before.
#![tactic(auto)]

mod checks;

ghost use Rattle.std.specs.Prelude.{◌≡◌, ℕ, ◌<◌, ◌≤◌, true, false};
ghost use Rattle.protocol.specs.Faults.{told_by, ledger_number};
ghost use Rattle.protocol.specs.House.{chains_most};
ghost use Rattle.protocol.specs.Ledger.{Ledger as Meaning, Lawful, supply as supply_of, users_hold, with_balances, credited, debited, moved, bar_set, cleared, credit_refusals, debit_refusals, move_refusals, bar_refusals, chain_refusals, supply_refusals, balance_refusals, user_refusals};
ghost use Rattle.protocol.specs.Refusals.{answer_unless, left_by};

pub use checks::{balance_within, chain_within, move_within, total_within, user_within, within};
use protocol::LedgerFault;
pub use protocol::{ACCOUNTS, DENOMINATIONS, USERS};

/// Balances of chains by account and denomination, and barred users. Numbers outside the meaning are refused, so they come as
/// they are: a struct of them would be made for each call alone, and promise nothing.
pub trait Ledger {
    ghost meaning: { Self → Meaning };

    // No supply passes 2^64 - 1, and a chain that serves no bars has no barred user.
    ghost lawful: { (l : Self) → Lawful (meaning l) };

    /// How many chains are served.
    fn chains(&self) -> usize
        ensures { result ≡ (meaning self.now).chains };

    /// What an account has of a denomination.
    fn balance(&self, chain: usize, account: usize, denomination: usize) -> Result<u64, LedgerFault>
        ensures { told_by ledger_number result ≡ answer_unless (balance_refusals (meaning self.now) chain account denomination) ((meaning self.now).balance chain account denomination) };

    /// What all accounts of the chain have of a denomination.
    fn supply(&self, chain: usize, denomination: usize) -> Result<u64, LedgerFault>
        ensures { told_by ledger_number result ≡ answer_unless (supply_refusals (meaning self.now) chain denomination) (supply_of (meaning self.now).balance chain denomination) };

    /// What the chain's users have of a denomination.
    fn users_hold(&self, chain: usize, denomination: usize) -> Result<u64, LedgerFault>
        ensures { told_by ledger_number result ≡ answer_unless (supply_refusals (meaning self.now) chain denomination) (users_hold (meaning self.now).balance chain denomination) };

    /// Whether a user is barred.
    fn is_barred(&self, chain: usize, user: usize) -> Result<bool, LedgerFault>
        ensures { told_by ledger_number result ≡ answer_unless (user_refusals (meaning self.now) chain user) ((meaning self.now).barred chain user) };

    /// Whether a chain serves bars.
    fn serves_bars(&self, chain: usize) -> Result<bool, LedgerFault>
        ensures { told_by ledger_number result ≡ answer_unless (chain_refusals (meaning self.now) chain) ((meaning self.now).serves_bars chain) };

    /// Adds to a balance.
    fn credit(
        &mut self,
        chain: usize,
        account: usize,
        denomination: usize,
        amount: u64,
    ) -> Result<(), LedgerFault>
        ensures answer { told_by ledger_number result ≡ answer_unless (credit_refusals (meaning self.old) chain account denomination amount) tt }
        ensures after { meaning self.new ≡ left_by result (meaning self.old) (with_balances (meaning self.old) (credited (meaning self.old).balance chain account denomination amount)) };

    /// Takes from a balance.
    fn debit(
        &mut self,
        chain: usize,
        account: usize,
        denomination: usize,
        amount: u64,
    ) -> Result<(), LedgerFault>
        ensures answer { told_by ledger_number result ≡ answer_unless (debit_refusals (meaning self.old) chain account denomination amount) tt }
        ensures after { meaning self.new ≡ left_by result (meaning self.old) (with_balances (meaning self.old) (debited (meaning self.old).balance chain account denomination amount)) };

    /// Moves an amount from one account of a chain to another, or to the same one, which alters nothing.
    fn transfer(
        &mut self,
        chain: usize,
        from: usize,
        to: usize,
        denomination: usize,
        amount: u64,
    ) -> Result<(), LedgerFault>
        ensures answer { told_by ledger_number result ≡ answer_unless (move_refusals (meaning self.old) chain from to denomination amount) tt }
        ensures after { meaning self.new ≡ left_by result (meaning self.old) (with_balances (meaning self.old) (moved (meaning self.old).balance chain from to denomination amount)) }
    {
        chain_within(self.chains(), chain)?;
        if from >= ACCOUNTS || to >= ACCOUNTS {
            return Err(LedgerFault::NoSuchAccount);
        }
        self.debit(chain, from, denomination, amount)?;
        self.credit(chain, to, denomination, amount)
    }

    /// Bars a user.
    fn bar(&mut self, chain: usize, user: usize) -> Result<(), LedgerFault>
        ensures answer { told_by ledger_number result ≡ answer_unless (bar_refusals (meaning self.old) chain user) tt }
        ensures after { meaning self.new ≡ left_by result (meaning self.old) (bar_set (meaning self.old) chain user true) };

    /// Lifts a user's bar.
    fn unbar(&mut self, chain: usize, user: usize) -> Result<(), LedgerFault>
        ensures answer { told_by ledger_number result ≡ answer_unless (bar_refusals (meaning self.old) chain user) tt }
        ensures after { meaning self.new ≡ left_by result (meaning self.old) (bar_set (meaning self.old) chain user false) };

    /// Empties all balances and the set of barred users.
    fn clear(&mut self)
        ensures { meaning self.new ≡ cleared (meaning self.old) };
}

/// A ledger that has nothing outside the chains that it serves.
pub trait Confined: Ledger {
    // A chain 0 to 7 that is not served has no balance.
    ghost unserved: { (l : Self) (c a d : ℕ) → c < chains_most → (Self.meaning l).chains ≤ c → (Self.meaning l).balance c a d ≡ 0 };
}
