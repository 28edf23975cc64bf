// Offering: an offer between two accounts is laid at the next place.
ghost use Rattle.std.specs.Prelude.{◌≡◌, [], ◌∷◌, Some, if◌then◌else◌, nat_le};
ghost use Rattle.tariff.specs.Faults.{answer, no_account};
ghost use Rattle.records.specs.Components.{component_number};
ghost use Rattle.records.specs.Refusals.{when, first_of};
ghost use Rattle.ledger.specs.Calls.{operating_on_noncore, offering, offered_on};

use crate::ledger::{Ledger, place_in};
use crate::offer::Offer;
use page::Page;
use records::Component;
use tariff::{Fault, Row};

/// Whether a component is the operating one, of a noncore account.
fn operating_on_noncore(component: Component, page: &Page) -> bool
    ensures { result ≡ operating_on_noncore (component_number component) page.now }
{
    component == Component::Operating && !page.is_core()
}

impl Ledger {
    /// Lays an offer at the next place, and gives the place; refuses where all places are taken.
    fn lay(&mut self, offer: Offer) -> Result<u8, Fault>
        ensures answer { answer (λ k. Some k) result ≡ first_of (when (nat_le 128 self.old.offered) 11 no_account ∷ []) (Some self.old.offered) }
        ensures ledger_after { self.new ≡ (if nat_le 128 self.old.offered then self.old else offered_on self.old offer) }
    {
        let place = self.offered;
        if place >= 128 {
            return Err(Fault::by_book(Row::NoOfferPlace, None));
        }
        self.offers[usize::from(place)] = offer;
        // A count beside the offers' places: nothing below the reports allocates, so there is no `Vec` to push on.
        self.offered += 1;
        Ok(place)
    }

    // Components come in as numbers: one outside its values is refused under row 1, and a narrower type would ask more of callers.
    /// Offers a quantity from a component of the giver to a component of the taker, and gives the offer's place.
    pub fn offer(
        &mut self,
        giver: u8,
        gives: u8,
        taker: u8,
        takes: u8,
        quantity: u64,
    ) -> Result<u8, Fault>
        ensures answer { answer (λ k. Some k) result ≡ (offering self.old giver gives taker takes quantity).answer }
        ensures ledger_after { self.new ≡ (offering self.old giver gives taker takes quantity).ledger }
    {
        let from = self.pages[place_in(&self.pages, giver)?];
        let to = self.pages[place_in(&self.pages, taker)?];
        let gives = Component::try_from(gives)?;
        let takes = Component::try_from(takes)?;
        if quantity < 1 {
            return Err(Fault::by_book(Row::Field, None));
        }
        if !from.is_open() {
            return Err(Fault::by_book(Row::NotOpen, Some(giver)));
        }
        if !to.is_open() {
            return Err(Fault::by_book(Row::NotOpen, Some(taker)));
        }
        if operating_on_noncore(gives, &from) || giver == taker {
            return Err(Fault::by_book(Row::WrongKind, Some(giver)));
        }
        if operating_on_noncore(takes, &to) {
            return Err(Fault::by_book(Row::WrongKind, Some(taker)));
        }
        if from.settled {
            return Err(Fault::by_book(Row::WrongState, Some(giver)));
        }
        if to.settled {
            return Err(Fault::by_book(Row::WrongState, Some(taker)));
        }
        if quantity > 100_000_000 {
            return Err(Fault::by_book(Row::PastLimit, Some(giver)));
        }
        self.lay(Offer {
            giver,
            gives,
            taker,
            takes,
            quantity: quantity as u32,
            stands: true,
        })
    }
}
