// Two values by the numbers 1 and 2, and what any other number is answered.
ghost use Rattle.std.specs.Prelude.{◌≡◌, cond, ◌==◌};
ghost use Rattle.records.specs.Numbered.{numbered};

use tariff::NoSuch;

/// The value with a number of two values; there are only the numbers 1 and 2.
pub(crate) fn numbered<V: Copy>(number: u8, first: V, second: V) -> Result<V, NoSuch>
    ensures { result ≡ numbered (λ n. cond (n == 2) second first) number }
{
    match number {
        1 => Ok(first),
        2 => Ok(second),
        _ => Err(NoSuch),
    }
}
