// The index card, made from published prices: its struct, whose prices keep the limit.
ghost use Rattle.cards.specs.Limits.{WithinLimits};

use crate::index::working::Working;
use crate::terms::Terms;

mod kept;
pub mod makes;
mod points;
pub mod published;
mod weights;
pub mod working;

/// A card whose prices come from a month's published prices.
#[derive(Clone, Copy)]
pub struct IndexCard {
    terms: Terms,
    working: Working,
    ghost limited: { WithinLimits terms },
}
