// The book's two options, and what the one that an account elects means for it.
ghost use Rattle.std.specs.Prelude.{◌≡◌};
ghost use Rattle.page.specs.Closing.{credits_of};
ghost use Rattle.page.specs.Pages.{chosen};

use crate::closing::Credits;
use balancing::{BalancingOption, Excess, GasDay, Parts, Statement};
use records::Election;

/// The book's two options, lent together.
#[derive(Clone, Copy)]
pub struct Options<'a, A, B> {
    pub first: &'a A,
    pub second: &'a B,
}

// Two types, so that which of them is asked is a match: a value of either type could be handed out only as a `dyn`.
impl<'a, A: BalancingOption, B: BalancingOption> Options<'a, A, B> {
    /// The parts of a statement's imbalance under the elected option.
    pub fn split(&self, election: Election, statement: &Statement) -> Parts
        ensures { result ≡ (chosen election (A.BalancingOption.rules self.now.first.now) (B.BalancingOption.rules self.now.second.now)).split statement.now.usage statement.now.monthly_quantity statement.now.imbalance }
    {
        match election {
            Election::First => self.first.split(statement),
            Election::Second => self.second.split(statement),
        }
    }

    /// The excesses of a day under the elected option.
    pub fn excess(&self, election: Election, day: &GasDay) -> Excess
        ensures { result ≡ (chosen election (A.BalancingOption.rules self.now.first.now) (B.BalancingOption.rules self.now.second.now)).excess day.now.receipts day.now.usage day.now.order day.now.monthly_quantity day.now.accumulated }
    {
        match election {
            Election::First => self.first.excess(day),
            Election::Second => self.second.excess(day),
        }
    }

    /// Whether the accounts of each option earn the credit.
    pub fn credits(&self) -> Credits
        ensures { result ≡ credits_of (A.BalancingOption.rules self.now.first.now) (B.BalancingOption.rules self.now.second.now) }
    {
        Credits {
            first: self.first.earns(),
            second: self.second.earns(),
        }
    }
}
