ghost use Rattle.std.specs.Prelude.{◌≡◌};
ghost use Rattle.std.proofs.Common.{rules};
ghost use Rattle.std.specs.Cmp.Rules.{comparing};
ghost use Rattle.std.specs.Ordering.{on};
ghost use Rattle.denom.specs.Denomination.{same_list, same_denom, same_token};
ghost use Rattle.denom.specs.Laws.{SameDenoms, SameTokens};
ghost use Rattle.denom.specs.Views.{hops_of, symbol_of, denom_view, token_view};

use super::types::{Denomination, Hops, Symbol, TokenId};

// The bytes behind the length do not count, so these two are not derived.

impl PartialEq for Hops {
    ghost eq = { on hops_of same_list };

    ghost laws = { Prim.search (comparing, rules) };

    fn eq(&self, other: &Hops) -> bool {
        self.as_slice() == other.as_slice()
    }
}

impl Eq for Hops {
    ghost laws = { Prim.search (comparing, rules) };
}

impl PartialEq for Symbol {
    ghost eq = { on symbol_of same_list };

    ghost laws = { Prim.search (comparing, rules) };

    fn eq(&self, other: &Symbol) -> bool {
        self.as_slice() == other.as_slice()
    }
}

impl Eq for Symbol {
    ghost laws = { Prim.search (comparing, rules) };
}

/// Denominations are equal that have the same hops and the same symbol, and tokens that have the same chain and the same symbol;
/// these are the ones that stand for the same.
pub fn equality_is_sameness() -> u8
    ensures denominations { (d e : _) → ⟦<Denomination as PartialEq>⟧.eq d e ≡ same_denom (denom_view d) (denom_view e) }
    ensures tokens { (t v : _) → ⟦<TokenId as PartialEq>⟧.eq t v ≡ same_token (token_view t) (token_view v) }
    ensures same_denominations { SameDenoms }
    ensures same_tokens { SameTokens }
{
    0
}
