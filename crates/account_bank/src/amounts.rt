ghost use Rattle.std.specs.Prelude.{◌≡◌, ℕ, ◌+◌, ◌*◌, ◌≤◌, IfSome, vec_len};
ghost use Rattle.protocol.specs.House.{most};
ghost use Rattle.protocol.specs.Ledger.{supply as supply_of, put as balance-put};
ghost use Rattle.bank.specs.OneChain.{chains_kept};
ghost use Rattle.account_bank.specs.Table.{table_chains, table_balances, table_kept};

use bank::{Bank, Holding, Store};
use protocol::{ACCOUNTS, DENOMINATIONS};
use sums::{Column, add_up};

// How many amounts one chain takes.
const AMOUNTS: usize = ACCOUNTS * DENOMINATIONS;

/// A bank that serves one chain, without bars, on the memory of 768 amounts; over less memory it serves none.
pub type AccountBank = Bank<Amounts>;

/// The balances of one chain as a table of amounts, a row for each account.
#[derive(Drop)]
pub struct Amounts {
    amounts: Vec<u64>,
    ghost large: { 768 ≤ vec_len amounts },
    ghost supplies: { (c d : ℕ) → supply_of (table_balances amounts.items) c d ≤ most },
}

fn wipe(amounts: &mut Vec<u64>)
    ensures len { vec_len amounts.new ≡ vec_len amounts.old }
    ensures empty { table_balances amounts.new.items ≡ (λ _ _ _. 0) }
    ensures supplies { (c d : ℕ) → supply_of (table_balances amounts.new.items) c d ≤ most }
{
    amounts.fill(0);
}

impl Amounts {
    // Sets one balance where the supply has room for it.
    fn put(&mut self, holding: Holding, amount: u64)
        requires { supply_of (table_balances self.old.amounts.items) 0 holding.denomination + amount ≤ most + table_balances self.old.amounts.items 0 holding.account holding.denomination }
        ensures { table_balances self.new.amounts.items ≡ balance-put (table_balances self.old.amounts.items) 0 holding.account holding.denomination amount }
    {
        self.amounts[holding.place()] = amount;
    }
}

impl Store for Amounts {
    type Unit = u64;

    ghost room = { table_chains };

    ghost balances = { λ s. table_balances s.amounts.items };

    ghost kept = { λ s. table_kept s.amounts.items s.supplies };

    fn over(mut amounts: Vec<u64>) -> Option<Amounts>
        ensures chains { chains_kept result ≡ table_chains amounts.items }
        ensures empty { IfSome result (λ s. table_balances s.amounts.items ≡ (λ _ _ _. 0)) }
    {
        if amounts.len() < AMOUNTS {
            return None;
        }
        wipe(&mut amounts);
        Some(Amounts { amounts })
    }

    fn at(&self, holding: Holding) -> u64 {
        self.amounts[holding.place()]
    }

    fn sum_of(&self, accounts: usize, denomination: usize) -> u64 {
        let column = Column {
            denomination,
            from: 0,
            to: accounts,
        };
        add_up(&self.amounts, &column) as u64
    }

    fn give(&mut self, holding: Holding, amount: u64) {
        let old = self.at(holding);
        self.put(holding, old + amount);
    }

    fn leave(&mut self, holding: Holding, rest: u64) {
        self.put(holding, rest);
    }

    fn clear(&mut self) {
        wipe(&mut self.amounts);
    }
}
