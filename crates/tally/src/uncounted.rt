// When the tally gives up.
ghost use Rattle.std.specs.Prelude.{Some, codes};

use std::fmt;

const UNCOUNTED: &str =
    "the tally cannot count this call: a number would pass 64 bits, an account past 63 would have gas, or there would be more than 128 offers";

/// The tally could not hold what comes of a call.
#[derive(Clone, Copy)]
pub struct Uncounted;

impl fmt::Display for Uncounted {
    ghost output = { λ _. Some (codes "the tally cannot count this call: a number would pass 64 bits, an account past 63 would have gas, or there would be more than 128 offers") };

    fn fmt<W: fmt::Write>(&self, f: &mut fmt::Formatter<W>) -> fmt::Result {
        f.write_str(UNCOUNTED)
    }
}
