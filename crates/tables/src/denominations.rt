ghost use Rattle.std.specs.Prelude.{◌≡◌, ◌<◌, ◌≤◌, map, length, IfSome};
ghost use Rattle.register.specs.Keys.{number_of};
ghost use Rattle.denom.specs.Denomination.{same_denom};
ghost use Rattle.denom.specs.Views.{denom_view};
ghost use Rattle.tables.specs.Registers.{number_for};
ghost use Rattle.tables.specs.View.{denoms_of};

use super::types::Tables;
use denom::Denomination;
use protocol::DENOMINATIONS;
use register::find_in;

impl Tables {
    /// A chain's denominations in order of registration; none where there is no such chain.
    pub fn denominations_on(&self, chain: usize) -> &[Denomination]
        ensures known { map denom_view result.now ≡ denoms_of self.now.denominations chain }
        ensures few { length result.now ≤ 32 }
        ensures chain { 0 < length result.now → chain < 8 }
    {
        match self.denominations.get(chain) {
            Some(row) => row.as_slice(),
            None => &[],
        }
    }

    /// The number of a denomination on a chain, below 32, or nothing; only chains 0 to 7 know any.
    pub fn number_of(&self, chain: usize, denomination: &Denomination) -> Option<usize>
        ensures number { result ≡ number_of (same_denom (denom_view denomination.now)) (denoms_of self.now.denominations chain) }
        ensures small { IfSome result (λ n. n < 32) }
        ensures chain { IfSome result (λ _. chain < 8) }
    {
        find_in(self.denominations_on(chain), denomination)
    }

    /// The number that a denomination has on a chain or would get, or nothing where it is new and the register is full.
    pub fn number_for(&self, chain: usize, denomination: &Denomination) -> Option<usize>
        ensures { result ≡ number_for (denom_view denomination.now) (denoms_of self.now.denominations chain) }
    {
        let next = self.denominations_on(chain).len();
        self.number_of(chain, denomination)
            .or((next < DENOMINATIONS).then_some(next))
    }
}
