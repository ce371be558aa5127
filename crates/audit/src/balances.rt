ghost use Rattle.std.specs.Prelude.{◌≡◌, ◌<◌};
ghost use Rattle.protocol.specs.Ledger.{supply as supply_of, users_hold};

use ledger::Confined;

// Plain numbers: a type of them would be made for each call alone.

// What an account has of a denomination; nothing where the chain is not served.
pub(crate) fn balance_at<L: Confined>(
    ledger: &L,
    chain: usize,
    account: usize,
    number: usize,
) -> u64
    requires chain { chain < 8 }
    requires account { account < 24 }
    requires number { number < 32 }
    ensures { result ≡ (L.meaning ledger.now).balance chain account number }
{
    ledger.balance(chain, account, number).unwrap_or(0)
}

// What all accounts of a chain have of a denomination; nothing where the chain is not served.
pub(crate) fn supply_at<L: Confined>(ledger: &L, chain: usize, number: usize) -> u64
    requires chain { chain < 8 }
    requires number { number < 32 }
    ensures { result ≡ supply_of (L.meaning ledger.now).balance chain number }
{
    ledger.supply(chain, number).unwrap_or(0)
}

// What a chain's users have of a denomination; nothing where the chain is not served.
pub(crate) fn users_hold_at<L: Confined>(ledger: &L, chain: usize, number: usize) -> u64
    requires chain { chain < 8 }
    requires number { number < 32 }
    ensures { result ≡ users_hold (L.meaning ledger.now).balance chain number }
{
    ledger.users_hold(chain, number).unwrap_or(0)
}
