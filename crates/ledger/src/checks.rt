ghost use Rattle.std.specs.Prelude.{◌≡◌, ◌||◌, nat_le};
ghost use Rattle.protocol.specs.Faults.{told_by, ledger_number};
ghost use Rattle.protocol.specs.House.{accounts};
ghost use Rattle.protocol.specs.Ledger.{outside, chain_refusals, balance_refusals, supply_refusals, user_refusals};
ghost use Rattle.protocol.specs.Refusals.{answer_unless};
ghost use Rattle.ledger.specs.Empty.{empty};

use protocol::{ACCOUNTS, DENOMINATIONS, LedgerFault, USERS};

/// Refuses a chain that is not served, where `chains` chains are.
pub fn chain_within(chains: usize, chain: usize) -> Result<(), LedgerFault>
    ensures { told_by ledger_number result ≡ answer_unless (chain_refusals (empty chains) chain) tt }
{
    if chain < chains {
        Ok(())
    } else {
        Err(LedgerFault::ChainNotServed)
    }
}

/// Refuses a chain, an account, an amount or a denomination outside the meaning of a ledger that serves `chains` chains.
pub fn within(
    chains: usize,
    chain: usize,
    account: usize,
    amount: u64,
    denomination: usize,
) -> Result<(), LedgerFault>
    ensures { told_by ledger_number result ≡ answer_unless (outside (empty chains) chain (nat_le accounts account) amount denomination) tt }
{
    balance_within(chains, chain, account, 0)?;
    if amount == 0 {
        return Err(LedgerFault::ZeroAmount);
    }
    balance_within(chains, chain, account, denomination)
}

/// Refuses a move from one account to another as `within` refuses, for either account.
pub fn move_within(
    chains: usize,
    chain: usize,
    from: usize,
    to: usize,
    amount: u64,
    denomination: usize,
) -> Result<(), LedgerFault>
    ensures { told_by ledger_number result ≡ answer_unless (outside (empty chains) chain (nat_le accounts from || nat_le accounts to) amount denomination) tt }
{
    balance_within(chains, chain, to, 0)?;
    within(chains, chain, from, amount, denomination)
}

/// Refuses a question about a balance that is outside the meaning.
pub fn balance_within(
    chains: usize,
    chain: usize,
    account: usize,
    denomination: usize,
) -> Result<(), LedgerFault>
    ensures { told_by ledger_number result ≡ answer_unless (balance_refusals (empty chains) chain account denomination) tt }
{
    chain_within(chains, chain)?;
    if account >= ACCOUNTS {
        return Err(LedgerFault::NoSuchAccount);
    }
    if denomination >= DENOMINATIONS {
        return Err(LedgerFault::NoSuchDenomination);
    }
    Ok(())
}

/// Refuses a question about a denomination's total that is outside the meaning.
pub fn total_within(chains: usize, chain: usize, denomination: usize) -> Result<(), LedgerFault>
    ensures { told_by ledger_number result ≡ answer_unless (supply_refusals (empty chains) chain denomination) tt }
{
    balance_within(chains, chain, 0, denomination)
}

/// Refuses a question about a user that is outside the meaning.
pub fn user_within(chains: usize, chain: usize, user: usize) -> Result<(), LedgerFault>
    ensures { told_by ledger_number result ≡ answer_unless (user_refusals (empty chains) chain user) tt }
{
    chain_within(chains, chain)?;
    if user >= USERS {
        return Err(LedgerFault::NoSuchAccount);
    }
    Ok(())
}
