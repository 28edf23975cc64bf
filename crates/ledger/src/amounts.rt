// What a call makes due, exactly.
ghost use Rattle.std.specs.Prelude.{◌≡◌};
ghost use Rattle.ledger.specs.Dues.{due_by};

use crate::ledger::Ledger;
use balancing::BalancingOption;
use cards::{AtHand, Card};
use dues::{due_at_settling, due_in};
use page::Options;
use records::Call;

impl Ledger {
    /// What a call, if performed, makes due at the prices of the cards at hand for settling and for closing, in ten-thousandths of a cent.
    pub fn due_by<A: BalancingOption, B: BalancingOption, C: Card, D: Card>(
        &self,
        options: &Options<'_, A, B>,
        call: &Call,
        cards: &AtHand<C, D>,
    ) -> i128
        ensures { result ≡ due_by (A.BalancingOption.rules options.now.first.now) (B.BalancingOption.rules options.now.second.now) self.now call.now (C.Card.meaning cards.now.settling) (D.Card.meaning cards.now.closing) }
    {
        match call {
            Call::Settle { account, .. } => {
                let page = self.page_of(*account);
                due_at_settling(&page, options, &cards.settling.terms())
            }
            Call::Close => due_in(&self.pages, &cards.closing.terms(), &options.credits()),
            _ => 0,
        }
    }
}
