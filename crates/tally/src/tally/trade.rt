// Accepting an offer.
ghost use Rattle.std.specs.Prelude.{pos, neg_ℤ};
ghost use Rattle.tally.specs.Tallies.{added, laid_at, traded};
ghost use Rattle.tally.specs.Meanings.{tally_of, laid_of, Counts};
ghost use Rattle.tally.specs.Steps.{exchanged, Moves};

use crate::offers::Laid;
use crate::tally::Tally;
use crate::uncounted::Uncounted;

impl Tally {
    /// Moves the quantity of the offer at a place to the taker, if the offer stands.
    pub(crate) fn accept(&mut self, taker: u8, place: u8) -> Result<(), Uncounted>
        ensures { Counts self.old result self.new (traded (tally_of self.old) (laid_at (tally_of self.old) place) taker place) }
    {
        let offer = self.offers.at(place);
        if !offer.stands {
            return Ok(());
        }
        self.exchange(&offer, taker, place)
    }

    /// Moves the quantity of an offer to the taker, and spends the offer at its place.
    fn exchange(&mut self, offer: &Laid, taker: u8, place: u8) -> Result<(), Uncounted>
        ensures { Counts self.old result self.new (exchanged (tally_of self.old) (laid_of offer.now) taker place) }
    {
        self.trade(offer.giver, taker, offer.quantity)?;
        self.offers.put(place, &offer.struck());
        Ok(())
    }

    /// Moves a quantity from the giver's number to the taker's.
    fn trade(&mut self, giver: u8, taker: u8, quantity: u64) -> Result<(), Uncounted>
        ensures { Moves self.old result self.new (added taker (pos quantity) (added giver (neg_ℤ (pos quantity)) (tally_of self.old).number)) }
    {
        if giver == taker {
            return Ok(());
        }
        let less = self.numbers.grown(giver, -i128::from(quantity))?;
        let more = self.numbers.grown(taker, i128::from(quantity))?;
        self.numbers.put(giver, less);
        self.numbers.put(taker, more);
        Ok(())
    }
}
