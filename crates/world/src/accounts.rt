ghost use Rattle.std.specs.Prelude.{◌≡◌, ◌<◌, IfSome};
ghost use Rattle.denom.specs.Views.{denom_view, symbol_of, token_view};
ghost use Rattle.protocol.specs.Calls.{step, said};
ghost use Rattle.protocol.specs.Calls.Answer.{done};
ghost use Rattle.protocol.specs.Calls.Call.{issue, retire, pay, bar, unbar};
ghost use Rattle.protocol.specs.Faults.{world_number, ledger_number, told_by};
ghost use Rattle.world.specs.Issuing.{issue_number};
ghost use Rattle.world.specs.View.{view};

use super::world::World;
use books::Book;
use denom::{Denomination, Symbol, TokenId};
use ledger::Ledger;
use protocol::{LedgerFault, TOKENS, USERS, WorldFault};

// A ledger's answer as the world's.
fn climbed(answer: Result<(), LedgerFault>) -> Result<(), WorldFault>
    ensures { told_by world_number result ≡ told_by ledger_number answer }
{
    Ok(answer?)
}

impl<L: Ledger, F: Book, S: Book> World<L, F, S> {
    /// Takes an amount of a hopless denomination from a user, and out of the world.
    pub fn retire(
        &mut self,
        chain: usize,
        user: usize,
        denomination: &Denomination,
        amount: u64,
    ) -> Result<(), WorldFault>
        ensures answer { said (λ _. done) world_number result ≡ (step (view L.meaning F.meaning S.meaning self.old) (retire chain user (denom_view denomination.now) amount)).1 }
        ensures after { view L.meaning F.meaning S.meaning self.new ≡ (step (view L.meaning F.meaning S.meaning self.old) (retire chain user (denom_view denomination.now) amount)).0 }
    {
        if !self.serves(chain) {
            return Err(WorldFault::NoSuchChain);
        }
        if user >= USERS {
            return Err(WorldFault::NoSuchUser);
        }
        if amount == 0 {
            return Err(WorldFault::AmountOrStepZero);
        }
        let number = self
            .tables
            .number_of(chain, denomination)
            .ok_or(WorldFault::NotRegistered)?;
        if !denomination.is_hopless() {
            return Err(WorldFault::HasHops);
        }
        climbed(self.ledger.debit(chain, user, number, amount))
    }

    /// Moves an amount from one user of a chain to another, or to the same one, which alters nothing.
    pub fn pay(
        &mut self,
        chain: usize,
        user: usize,
        payee: usize,
        denomination: &Denomination,
        amount: u64,
    ) -> Result<(), WorldFault>
        ensures answer { said (λ _. done) world_number result ≡ (step (view L.meaning F.meaning S.meaning self.old) (pay chain user payee (denom_view denomination.now) amount)).1 }
        ensures after { view L.meaning F.meaning S.meaning self.new ≡ (step (view L.meaning F.meaning S.meaning self.old) (pay chain user payee (denom_view denomination.now) amount)).0 }
    {
        if !self.serves(chain) {
            return Err(WorldFault::NoSuchChain);
        }
        if user >= USERS || payee >= USERS {
            return Err(WorldFault::NoSuchUser);
        }
        if amount == 0 {
            return Err(WorldFault::AmountOrStepZero);
        }
        let number = self
            .tables
            .number_of(chain, denomination)
            .ok_or(WorldFault::NotRegistered)?;
        climbed(self.ledger.transfer(chain, user, payee, number, amount))
    }

    // The number that a token's hopless denomination has or would get; nothing where a new key meets a full register.
    fn room_for(&self, token: &TokenId, denomination: &Denomination) -> Option<usize>
        ensures number { result ≡ issue_number (view L.meaning F.meaning S.meaning self.now) (token_view token.now) (denom_view denomination.now) }
        ensures small { IfSome result (λ n. n < 32) }
    {
        let number = self.tables.number_for(token.chain, denomination)?;
        let known = self.tables.tokens.number_of(token).is_some();
        (known | (self.tables.tokens.len() < TOKENS)).then_some(number)
    }

    /// Registers a symbol's token and denomination on a chain, if they are new, and credits a user.
    pub fn issue(
        &mut self,
        chain: usize,
        user: usize,
        symbol: Symbol,
        amount: u64,
    ) -> Result<(), WorldFault>
        ensures answer { said (λ _. done) world_number result ≡ (step (view L.meaning F.meaning S.meaning self.old) (issue chain user (symbol_of symbol) amount)).1 }
        ensures after { view L.meaning F.meaning S.meaning self.new ≡ (step (view L.meaning F.meaning S.meaning self.old) (issue chain user (symbol_of symbol) amount)).0 }
    {
        if !self.serves(chain) {
            return Err(WorldFault::NoSuchChain);
        }
        if user >= USERS {
            return Err(WorldFault::NoSuchUser);
        }
        if amount == 0 {
            return Err(WorldFault::AmountOrStepZero);
        }
        let denomination = Denomination::hopless(symbol);
        let token = TokenId { chain, symbol };
        let number = self
            .room_for(&token, &denomination)
            .ok_or(WorldFault::RegisterFull)?;
        self.ledger.credit(chain, user, number, amount)?;
        self.enrol(chain, &denomination);
        self.enrol_token(&token);
        Ok(())
    }

    /// Bars a user.
    pub fn bar(&mut self, chain: usize, user: usize) -> Result<(), WorldFault>
        ensures answer { said (λ _. done) world_number result ≡ (step (view L.meaning F.meaning S.meaning self.old) (bar chain user)).1 }
        ensures after { view L.meaning F.meaning S.meaning self.new ≡ (step (view L.meaning F.meaning S.meaning self.old) (bar chain user)).0 }
    {
        if !self.serves(chain) {
            return Err(WorldFault::NoSuchChain);
        }
        climbed(self.ledger.bar(chain, user))
    }

    /// Lifts a user's bar.
    pub fn unbar(&mut self, chain: usize, user: usize) -> Result<(), WorldFault>
        ensures answer { said (λ _. done) world_number result ≡ (step (view L.meaning F.meaning S.meaning self.old) (unbar chain user)).1 }
        ensures after { view L.meaning F.meaning S.meaning self.new ≡ (step (view L.meaning F.meaning S.meaning self.old) (unbar chain user)).0 }
    {
        if !self.serves(chain) {
            return Err(WorldFault::NoSuchChain);
        }
        climbed(self.ledger.unbar(chain, user))
    }
}
