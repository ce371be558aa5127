// What a bank over a table of amounts means, said of its table.
ghost use Rattle.std.specs.Prelude.{◌≡◌, Option};
ghost use Rattle.account_bank.specs.declared.amounts.Amounts.{Amounts};
ghost use Rattle.protocol.specs.Ledger.{Lawful};
ghost use Rattle.account_bank.specs.Table.{table_meaning};
ghost use Rattle.account_bank.specs.Meaning.{amounts_of};

use crate::amounts::AccountBank;
use ledger::Ledger;

/// A bank is the ledger that its table means, and that ledger keeps both laws.
pub fn bank_means_its_table()
    ensures meaning { (b : _) → ⟦<AccountBank as Ledger>⟧.meaning b ≡ table_meaning (amounts_of b.store) }
    ensures lawful { (o : Option Amounts) → Lawful (table_meaning (amounts_of o)) }
{}
