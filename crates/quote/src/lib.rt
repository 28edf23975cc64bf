// What an agent is quoted before its imbalance is traded or cashed out.
#![tactic(auto)]

ghost use Rattle.std.specs.Prelude.{◌≡◌};
ghost use Rattle.quote.specs.Quotes.{quoted, Whole, HalfACentALine};

use balancing::{BalancingOption, Cashout, Parts, Statement, TierPrices};

/// The parts of a statement's imbalance, and what is billed for them.
#[derive(Clone, Copy)]
pub struct Quote {
    pub parts: Parts,
    pub cashout: Cashout,
}

impl Quote {
    /// The split under the option, and its cashout.
    fn split_and_cash_out<O: BalancingOption>(
        statement: &Statement,
        option: &O,
        prices: &TierPrices,
    ) -> Quote
        ensures { result ≡ quoted (O.BalancingOption.rules option.now) statement.now prices.now }
    {
        let parts = option.split(statement);
        Quote {
            parts,
            cashout: prices.cash_out(&parts),
        }
    }

    /// What an option makes of a statement at four cashout prices.
    pub fn new<O: BalancingOption>(statement: &Statement, option: &O, prices: &TierPrices) -> Quote
        ensures value { result ≡ quoted (O.BalancingOption.rules option.now) statement.now prices.now }
        ensures no_gas_is_lost { Whole statement.now result }
        ensures half_a_cent_a_line { HalfACentALine prices.now result }
    {
        Quote::split_and_cash_out(statement, option, prices)
    }
}
