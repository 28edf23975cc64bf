// Accepting: an offer's quantity goes from the giver's page to the taker's, once, and is confirmed.
ghost use Rattle.std.specs.Prelude.{◌≡◌, ◌<◌, length};
ghost use Rattle.records.specs.Refusals.{said};
ghost use Rattle.register.specs.Registers.{free, Wrote};
ghost use Rattle.ledger.specs.Calls.{open_to, spent, statement_month, confirmed, accepting};
ghost use Rattle.ledger.specs.Ledgers.{page, with_page, with_offer};

use crate::ledger::{Ledger, place_in};
use crate::offer::Offer;
use page::Page;
use records::Trade;
use register::Register;
use tariff::{Fault, Month, Row};

impl Ledger {
    /// Whether the offer at a place is open, and made to an account by another.
    fn is_open_to(&self, offer: &Offer, taker: u8, place: u8) -> bool
        ensures { result ≡ open_to self.now offer.now taker place }
    {
        place < self.offered && offer.stands && offer.taker == taker && offer.giver != taker
    }

    /// The month before the running one.
    pub fn statement_month(&self) -> Month
        ensures { result ≡ statement_month self.now }
    {
        self.month.previous().unwrap_or(self.month)
    }

    /// Replaces the page of an account; there is none past the last.
    fn put_page(&mut self, account: u8, page: &Page)
        ensures { self.new ≡ with_page self.old account page.now }
    {
        if let Ok(place) = place_in(&self.pages, account) {
            self.pages[place] = *page;
        }
    }

    // The one place that asks for a place below 128, which `accept` has tested: no type of its own for it.
    /// Replaces both pages of a trade, and spends its offer.
    fn trade(&mut self, offer: &Offer, place: u8, taker: u8, poorer: &Page, richer: &Page)
        requires { place < 128 }
        ensures { self.new ≡ with_offer (with_page (with_page self.old offer.now.giver poorer.now) taker richer.now) place (spent offer.now) }
    {
        self.put_page(offer.giver, poorer);
        self.put_page(taker, richer);
        self.offers[usize::from(place)] = Offer {
            stands: false,
            ..*offer
        };
    }

    /// The confirmation of a trade.
    fn confirmation(&self, offer: &Offer) -> Trade
        ensures { result ≡ confirmed self.now offer.now }
    {
        Trade {
            month: self.statement_month(),
            giver: offer.giver,
            gives: offer.gives,
            taker: offer.taker,
            takes: offer.takes,
            quantity: offer.quantity,
        }
    }

    /// Accepts the offer at a place, by its taker.
    pub fn accept(
        &mut self,
        taker: u8,
        place: u8,
        trades: &mut Register<'_, Trade>,
    ) -> Result<(), Fault>
        ensures answer { said result ≡ (accepting self.old taker place (length (free trades.old))).answer }
        ensures ledger_after { self.new ≡ (accepting self.old taker place (length (free trades.old))).ledger }
        ensures trades_after { Wrote trades.old (accepting self.old taker place (length (free trades.old))).trades trades.new }
    {
        let to = self.pages[place_in(&self.pages, taker)?];
        let offer = self.offers[place_in(&self.offers, place)?];
        let from = self.page_of(offer.giver);
        if !to.is_open() {
            return Err(Fault::by_book(Row::NotOpen, Some(taker)));
        }
        if self.is_open_to(&offer, taker, place) && !from.is_open() {
            return Err(Fault::by_book(Row::NotOpen, Some(offer.giver)));
        }
        if !self.is_open_to(&offer, taker, place) {
            return Err(Fault::by_book(Row::NoOffer, Some(taker)));
        }
        if to.settled {
            return Err(Fault::by_book(Row::WrongState, Some(taker)));
        }
        if from.settled {
            return Err(Fault::by_book(Row::WrongState, Some(offer.giver)));
        }
        let richer = to
            .gaining(offer.takes, offer.quantity)
            .ok_or(Fault::by_book(Row::PastLimit, Some(taker)))?;
        let poorer = from
            .losing(offer.gives, offer.quantity)
            .ok_or(Fault::by_book(Row::PastLimit, Some(offer.giver)))?;
        trades.write(self.confirmation(&offer))?;
        self.trade(&offer, place, taker, &poorer, &richer);
        Ok(())
    }
}
