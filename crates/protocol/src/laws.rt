// The laws of the model, each as the contract of a function, so that the check asks for its proof.
ghost use Rattle.protocol.specs.Known.{OutcomesKnown};
ghost use Rattle.protocol.specs.Laws.{Bounded, Conservation, RefusalsInOrder, SupplyAccounted};

/// Conservation over every past of a world, over any ledger and any two books.
pub fn conserved()
    ensures { Conservation }
{}

/// Each call's refusals are listed in the order of checking.
pub fn refusals_in_order()
    ensures { RefusalsInOrder }
{}

/// The house's bounds, the ledger's laws and registers without repeats, at every moment.
pub fn bounded()
    ensures { Bounded }
{}

/// Every token's supply at home, and every escrow, is accounted for at every moment.
pub fn supply_is_accounted()
    ensures { SupplyAccounted }
{}

/// The known outcomes together, computed from the definitions.
pub fn known_outcomes()
    ensures { OutcomesKnown }
{}
