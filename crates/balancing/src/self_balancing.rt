// Self-Balancing: limits on every day, and a credit for keeping them.
ghost use Rattle.std.specs.Prelude.{◌≡◌, ◌-◌, true};
ghost use Rattle.balancing.specs.Rules.{Rules};
ghost use Rattle.balancing.specs.Options.{self_balancing, self_balancing_split, self_balancing_excess};
ghost use Rattle.std.proofs.Common.{rules};

use crate::option::{
    BalancingOption, Excess, FlowOrder, GasDay, Parts, Statement, held_within, rest,
};

/// Daily balancing within ten percent of the day's usage and one percent of the monthly quantity.
#[derive(Clone, Copy)]
pub struct SelfBalancing;

impl BalancingOption for SelfBalancing {
    const MARK: char = 'S';

    const EARNS_CREDIT: bool = true;

    ghost rules = { λ _. self_balancing };

    ghost sound = { Prim.search rules };

    fn letter(&self) -> char
        ensures { result ≡ 83 }
    {
        Self::MARK
    }

    fn earns(&self) -> bool
        ensures { result ≡ true }
    {
        Self::EARNS_CREDIT
    }

    fn split(&self, statement: &Statement) -> Parts
        ensures { result ≡ self_balancing_split statement.now.monthly_quantity statement.now.imbalance }
    {
        let imbalance = statement.imbalance;
        let kept = held_within(statement.monthly_quantity / 100, imbalance);
        Parts {
            kept,
            tier_one: 0,
            tier_two: rest(imbalance, kept),
        }
    }

    fn excess(&self, day: &GasDay) -> Excess
        ensures { result ≡ self_balancing_excess day.now.receipts day.now.usage day.now.order day.now.monthly_quantity day.now.accumulated }
    {
        let daily = match day.order {
            FlowOrder::Absent => day
                .receipts
                .abs_diff(day.usage)
                .saturating_sub(day.usage / 10),
            FlowOrder::InEffect => 0,
        };
        Excess {
            daily,
            accumulated: day
                .accumulated
                .unsigned_abs()
                .saturating_sub(day.monthly_quantity / 100),
        }
    }
}
