use account_bank::AccountBank;
use layers::{Barring, Beside};
use ledger::Ledger;
use note_bank::NoteBank;
use protocol::LedgerFault;
use std::alloc::{AllocError, Global};
use std::process::Abort;
use std::test::Fail;

// A call on a chain: one account, or two, a denomination and an amount.
#[derive(Clone, Copy)]
enum Step {
    Credit(usize, usize, u64),
    Debit(usize, usize, u64),
    Transfer(usize, usize, usize, u64),
}

// Carries out a step, or gives the number of the refusal.
fn carry_out<L: Ledger>(ledger: &mut L, chain: usize, step: Step) -> Result<(), u8> {
    let answer = match step {
        Step::Credit(account, denomination, amount) => {
            ledger.credit(chain, account, denomination, amount)
        }
        Step::Debit(account, denomination, amount) => {
            ledger.debit(chain, account, denomination, amount)
        }
        Step::Transfer(from, to, denomination, amount) => {
            ledger.transfer(chain, from, to, denomination, amount)
        }
    };
    answer.map_err(LedgerFault::number)
}

// The table of operations, and what it leaves.
fn try_out<L: Ledger>(rt: &impl Abort, ledger: &mut L, chain: usize) {
    let steps = [
        (Step::Credit(2, 5, 100), Ok(())),
        (Step::Credit(2, 5, 50), Ok(())),
        (Step::Debit(2, 5, 151), Err(32)),
        (Step::Debit(2, 5, 30), Ok(())),
        (Step::Transfer(2, 17, 5, 40), Ok(())),
        (Step::Transfer(2, 2, 5, 80), Ok(())),
        (Step::Transfer(2, 2, 5, 81), Err(32)),
        (Step::Transfer(2, 24, 32, 0), Err(12)),
        (Step::Credit(24, 32, 0), Err(12)),
        (Step::Credit(23, 32, 0), Err(13)),
        (Step::Credit(23, 32, 1), Err(14)),
        (Step::Credit(9, 5, u64::MAX - 119), Err(33)),
        (Step::Credit(9, 5, u64::MAX - 120), Ok(())),
        (Step::Debit(9, 5, u64::MAX - 120), Ok(())),
    ];
    for (step, answer) in steps {
        assert_eq!(rt; carry_out(ledger, chain, step), answer);
    }
    assert_eq!(rt; ledger.balance(chain, 2, 5), Ok(80));
    assert_eq!(rt; ledger.balance(chain, 17, 5), Ok(40));
    assert_eq!(rt; ledger.supply(chain, 5), Ok(120));
    assert_eq!(rt; ledger.users_hold(chain, 5), Ok(80));
    ledger.clear();
    assert_eq!(rt; ledger.supply(chain, 5), Ok(0));
}

fn account_bank(heap: Global) -> Result<AccountBank, AllocError> {
    Ok(AccountBank::new(vec![in heap; 7; 768]?))
}

fn note_bank(heap: Global) -> Result<NoteBank, AllocError> {
    Ok(NoteBank::new(vec![in heap; None; 1024]?))
}

#[test]
fn every_ledger_gives_the_same_answers(rt: HostRuntime) -> Result<(), Fail> {
    let heap = rt.alloc();
    try_out(&rt, &mut account_bank(heap)?, 0);
    try_out(&rt, &mut note_bank(heap)?, 0);
    let mut both = Barring::new(Beside::new(account_bank(heap)?, note_bank(heap)?));
    assert_eq!(rt; both.chains(), 2);
    try_out(&rt, &mut both, 0);
    try_out(&rt, &mut both, 1);
    assert_eq!(rt;
        both.credit(2, 0, 0, 1).map_err(LedgerFault::number),
        Err(6)
    );
    Ok(())
}

#[test]
fn too_little_memory_serves_no_chain(rt: HostRuntime) -> Result<(), Fail> {
    let amounts = AccountBank::new(vec![in rt.alloc(); 0; 767]?);
    let notes = NoteBank::new(vec![in rt.alloc(); None; 1023]?);
    assert_eq!(rt; amounts.chains(), 0);
    assert_eq!(rt; notes.chains(), 0);
    Ok(())
}

#[test]
fn notes_are_joined_when_no_place_is_free(rt: HostRuntime) -> Result<(), Fail> {
    let mut bank = note_bank(rt.alloc())?;
    for i in 0..1100 {
        assert_eq!(rt;
            bank.credit(0, i % 24, i % 32, 1)
                .map_err(LedgerFault::number),
            Ok(())
        );
    }
    assert_eq!(rt; bank.balance(0, 0, 0), Ok(12));
    assert_eq!(rt; bank.supply(0, 0), Ok(35));
    Ok(())
}

#[test]
fn bars_stand_over_banks_that_serve_none(rt: HostRuntime) -> Result<(), Fail> {
    let mut bank = account_bank(rt.alloc())?;
    assert_eq!(rt; bank.bar(0, 3).map_err(LedgerFault::number), Err(30));
    let mut ledger = Barring::new(bank);
    assert_eq!(rt;
        ledger.credit(0, 3, 0, 9).map_err(LedgerFault::number),
        Ok(())
    );
    assert_eq!(rt; ledger.bar(0, 3).map_err(LedgerFault::number), Ok(()));
    assert_eq!(rt; ledger.bar(0, 3).map_err(LedgerFault::number), Ok(()));
    assert_eq!(rt;
        ledger.debit(0, 3, 0, 1).map_err(LedgerFault::number),
        Err(31)
    );
    assert_eq!(rt;
        ledger.transfer(0, 3, 4, 0, 1).map_err(LedgerFault::number),
        Err(31)
    );
    assert_eq!(rt;
        ledger.credit(0, 3, 0, 1).map_err(LedgerFault::number),
        Ok(())
    );
    assert_eq!(rt; ledger.unbar(0, 3).map_err(LedgerFault::number), Ok(()));
    assert_eq!(rt;
        ledger.transfer(0, 3, 4, 0, 10).map_err(LedgerFault::number),
        Ok(())
    );
    assert_eq!(rt; ledger.bar(0, 16).map_err(LedgerFault::number), Err(12));
    Ok(())
}
