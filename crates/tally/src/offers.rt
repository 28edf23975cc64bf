// The offers by place.
ghost use Rattle.std.specs.Prelude.{◌≡◌, ◌≤◌, true, [], ◌∷◌, ◌++◌, length, map, slice_index_or, slice_set};
ghost use Rattle.std.specs.Result.{MatchResult};
ghost use Rattle.tally.specs.Tallies.{nothing_laid};
ghost use Rattle.tally.specs.Meanings.{laid_of, offers_of};
ghost use Rattle.tally.specs.Steps.{struck};

use crate::uncounted::Uncounted;
use crate::writing::write;

/// An offer that was laid: who gives how much, and whether it still stands.
// A flag beside the offer, and no `Option`: by the definition of the tally a spent offer keeps its giver and its quantity.
#[derive(Clone, Copy)]
pub(crate) struct Laid {
    pub(crate) giver: u8,
    pub(crate) quantity: u64,
    pub(crate) stands: bool,
}

const NO_OFFER: Laid = Laid {
    giver: 0,
    quantity: 0,
    stands: false,
};

impl Laid {
    /// The offer, which no longer stands.
    pub(crate) fn struck(&self) -> Laid
        ensures { result ≡ struck self.now }
    {
        Laid {
            stands: false,
            ..*self
        }
    }
}

/// The offers laid since the last closing, the first at place 0.
// Places with a count, and no `Vec`: nothing below the reports allocates, so that no call fails for want of memory.
#[derive(Clone, Copy)]
pub(crate) struct Offers {
    places: [Laid; 128],
    count: u8,
}

impl Offers {
    pub(crate) fn new() -> Offers
        ensures { offers_of result ≡ [] }
    {
        Offers {
            places: [NO_OFFER; 128],
            count: 0,
        }
    }

    /// The offers that were laid.
    fn laid(&self) -> &[Laid]
        ensures { map laid_of result.now ≡ offers_of self.now }
    {
        &self.places[..usize::from(self.count).min(128)]
    }

    /// The offer at a place; where none was laid, nothing stands.
    pub(crate) fn at(&self, place: u8) -> Laid
        ensures { laid_of result ≡ slice_index_or (offers_of self.now) place nothing_laid }
    {
        self.laid()
            .get(usize::from(place))
            .copied()
            .unwrap_or(NO_OFFER)
    }

    /// Lays an offer at the next place, if there is one.
    pub(crate) fn lay(&mut self, giver: u8, quantity: u64) -> Result<(), Uncounted>
        ensures { MatchResult result (λ _. offers_of self.new ≡ offers_of self.old ++ (record { giver = giver; quantity = quantity; stands = true } ∷ [])) (λ _. (self.new ≡ self.old) × (128 ≤ length (offers_of self.old))) }
    {
        if usize::from(self.count) >= self.places.len() {
            return Err(Uncounted);
        }
        self.places[usize::from(self.count)] = Laid {
            giver,
            quantity,
            stands: true,
        };
        self.count += 1;
        Ok(())
    }

    /// Lays another offer at a place.
    pub(crate) fn put(&mut self, place: u8, offer: &Laid)
        ensures { offers_of self.new ≡ slice_set (offers_of self.old) place (laid_of offer.now) }
    {
        write(&mut self.places, place, *offer);
    }

    /// No offer is left.
    pub(crate) fn clear(&mut self)
        ensures { offers_of self.new ≡ [] }
    {
        self.count = 0;
    }
}
