// A working whose figures keep their limits.
ghost use Rattle.std.specs.Prelude.{◌≤◌};

use crate::index::working::Working;

/// A working, from whose figures no card price passes its limit.
#[derive(Clone, Copy)]
pub(crate) struct Kept {
    pub(crate) working: Working,
    ghost weighted: { (working.weighted_low ≤ 10000000) × (working.weighted_high ≤ 10000000) },
    ghost dollars: { working.citygate_dollars ≤ 1000 },
    ghost smallest: { (working.malin.smallest ≤ 20000000) × (working.topock.smallest ≤ 20000000) },
    ghost largest: { (working.malin.largest ≤ 20000000) × (working.topock.largest ≤ 20000000) },
}
