// Monthly balancing.
ghost use Rattle.std.specs.Prelude.{◌≡◌, ◌*◌, ◌/◌, ◌≤◌, false};
ghost use Rattle.balancing.specs.Rules.{Rules};
ghost use Rattle.balancing.specs.Options.{monthly, monthly_split, split_in_bands, no_excess, percentage, tolerance_answer};
ghost use Rattle.tariff.specs.Faults.{answer};
ghost use Rattle.balancing.specs.Splits.{monthly_laws};

use crate::option::{BalancingOption, Excess, GasDay, Parts, Statement, held_within, rest};
use tariff::{Fault, Row};

/// The share of the usage that is kept, in percent.
#[derive(Clone, Copy)]
pub enum Tolerance {
    Three = 3,
    Four = 4,
    Five = 5,
}

impl TryFrom<u8> for Tolerance {
    type Error = Fault;

    ghost try_from_gives = { λ percent r. answer (λ t. percentage t) r ≡ tolerance_answer percent };

    fn try_from(percent: u8) -> Result<Tolerance, Fault> {
        match percent {
            3 => Ok(Tolerance::Three),
            4 => Ok(Tolerance::Four),
            5 => Ok(Tolerance::Five),
            _ => Err(Fault::by_book(Row::Field, None)),
        }
    }
}

impl Tolerance {
    pub fn percent(&self) -> u8
        ensures { result ≡ percentage self.now }
    {
        *self as u8
    }

    /// The tolerance of a usage, in whole Dth.
    pub fn band(&self, usage: u32) -> u32
        ensures value { result ≡ usage * percentage self.now / 100 }
        ensures below_a_tenth { result ≤ usage / 10 }
    {
        (u64::from(usage) * u64::from(self.percent()) / 100) as u32
    }
}

/// Kept within a narrow band, Tier I within a wide one, Tier II beyond.
fn split_in_bands(narrow: u32, wide: u32, imbalance: i32) -> Parts
    requires { narrow ≤ wide }
    ensures { result ≡ split_in_bands narrow wide imbalance }
{
    let kept = held_within(narrow, imbalance);
    let within = held_within(wide, imbalance);
    let tier_one = rest(within, kept);
    let tier_two = rest(imbalance, within);
    Parts {
        kept,
        tier_one,
        tier_two,
    }
}

/// Monthly balancing within a tolerance.
#[derive(Clone, Copy)]
pub struct Monthly {
    pub tolerance: Tolerance,
}

impl Monthly {
    /// The option with a tolerance of 3, 4 or 5 percent; any other is refused.
    pub fn new(percent: u8) -> Result<Monthly, Fault>
        ensures { answer (λ m. percentage m.tolerance) result ≡ tolerance_answer percent }
    {
        Ok(Monthly {
            tolerance: Tolerance::try_from(percent)?,
        })
    }
}

impl BalancingOption for Monthly {
    const MARK: char = 'M';

    const EARNS_CREDIT: bool = false;

    ghost rules = { λ m. monthly (percentage m.tolerance) };

    ghost sound = { λ x. monthly_laws x.tolerance };

    fn letter(&self) -> char
        ensures { result ≡ 77 }
    {
        Self::MARK
    }

    fn earns(&self) -> bool
        ensures { result ≡ false }
    {
        Self::EARNS_CREDIT
    }

    fn split(&self, statement: &Statement) -> Parts
        ensures { result ≡ monthly_split (percentage self.now.tolerance) statement.now.usage statement.now.imbalance }
    {
        let usage = statement.usage;
        split_in_bands(self.tolerance.band(usage), usage / 10, statement.imbalance)
    }

    fn excess(&self, day: &GasDay) -> Excess
        ensures { result ≡ no_excess }
    {
        Excess {
            daily: 0,
            accumulated: 0,
        }
    }
}
