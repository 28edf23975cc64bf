// What every price card means.
ghost use Rattle.std.specs.Prelude.{◌≡◌};
ghost use Rattle.cards.specs.declared.terms.Terms.{Terms};
ghost use Rattle.cards.specs.Limits.{WithinLimits};

use crate::terms::Terms;

/// A price card. It never refuses, and asking it alters nothing.
pub trait Card {
    ghost meaning: { Self → Terms };

    /// The card's month and its six prices.
    fn terms(&self) -> Terms
        ensures { result ≡ meaning self.now };

    ghost within_limits: { (c : Self) → WithinLimits (meaning c) };
}

/// A borrowed card is a card.
impl<C: Card> Card for &C {
    ghost meaning = { λ c. C.Card.meaning c.now };

    fn terms(&self) -> Terms {
        (**self).terms()
    }

    ghost within_limits = { λ c. C.Card.within_limits c.now };
}
