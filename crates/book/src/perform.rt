// Any of the ten calls.
ghost use Rattle.std.specs.Prelude.{◌≡◌, length};
ghost use Rattle.tariff.specs.Faults.{answer};
ghost use Rattle.register.specs.Registers.{free, Wrote};
ghost use Rattle.runs.specs.Runs.{outcome, handed};
ghost use Rattle.book.specs.Books.{with_ledger};

use crate::agents::Book;
use balancing::BalancingOption;
use cards::{AtHand, Card};
use records::{BillLine, Call, Trade};
use register::Register;
use tariff::Fault;

impl<A: BalancingOption, B: BalancingOption> Book<A, B> {
    // Both registers are handed beside the book, by the project's rule: each call takes the one that it writes, and most take none.
    /// Performs a call, with the cards at hand for settling and for closing, and both registers. A performed offering gives its place.
    pub fn perform<C: Card, D: Card>(
        &mut self,
        call: &Call,
        cards: &AtHand<C, D>,
        bills: &mut Register<'_, BillLine>,
        trades: &mut Register<'_, Trade>,
    ) -> Result<Option<u8>, Fault>
        ensures answer { answer (λ x. x) result ≡ (outcome (A.BalancingOption.rules self.old.first) (B.BalancingOption.rules self.old.second) self.old.ledger (handed call.now (C.Card.meaning cards.now.settling) (D.Card.meaning cards.now.closing) (length (free bills.old)) (length (free trades.old)))).answer }
        ensures book_after { self.new ≡ with_ledger self.old (outcome (A.BalancingOption.rules self.old.first) (B.BalancingOption.rules self.old.second) self.old.ledger (handed call.now (C.Card.meaning cards.now.settling) (D.Card.meaning cards.now.closing) (length (free bills.old)) (length (free trades.old)))).ledger }
        ensures bills_after { Wrote bills.old (outcome (A.BalancingOption.rules self.old.first) (B.BalancingOption.rules self.old.second) self.old.ledger (handed call.now (C.Card.meaning cards.now.settling) (D.Card.meaning cards.now.closing) (length (free bills.old)) (length (free trades.old)))).bills bills.new }
        ensures trades_after { Wrote trades.old (outcome (A.BalancingOption.rules self.old.first) (B.BalancingOption.rules self.old.second) self.old.ledger (handed call.now (C.Card.meaning cards.now.settling) (D.Card.meaning cards.now.closing) (length (free bills.old)) (length (free trades.old)))).trades trades.new }
    {
        match call {
            Call::Open {
                account,
                kind,
                election,
                monthly_quantity,
            } => self
                .open(*account, *kind, *election, *monthly_quantity)
                .map(|()| None),
            Call::Set {
                account,
                monthly_quantity,
            } => self.set(*account, *monthly_quantity).map(|()| None),
            Call::Post {
                account,
                day,
                order,
                receipts,
                usage,
            } => self
                .post(*account, *day, *order, *receipts, *usage)
                .map(|()| None),
            Call::Adjust { account, quantity } => self.adjust(*account, *quantity).map(|()| None),
            Call::State { account, quantity } => self.state(*account, *quantity).map(|()| None),
            Call::Offer {
                giver,
                gives,
                taker,
                takes,
                quantity,
            } => self
                .offer(*giver, *gives, *taker, *takes, *quantity)
                .map(Some),
            Call::Accept { taker, place } => self.accept(*taker, *place, trades).map(|()| None),
            Call::Fold { member, agent } => self.fold(*member, *agent).map(|()| None),
            Call::Settle { account, clear } => self
                .settle(&cards.settling, *account, *clear, bills)
                .map(|()| None),
            Call::Close => self.close(&cards.closing, bills).map(|()| None),
        }
    }
}
