// Names of what is handed in by number. A call holds the numbers that were handed in, and some of these name nothing.
use records::{Component, Kind};
use std::fmt;
use tariff::NoSuch;

/// Writes the name of what has a number, or `none` where nothing has it.
fn write_name<T: TryFrom<u8, Error = NoSuch> + fmt::Display + Copy, W: fmt::Write>(
    f: &mut fmt::Formatter<W>,
    number: u8,
    none: &str,
) -> fmt::Result {
    match T::try_from(number) {
        Ok(named) => write!(f, "{named}"),
        Err(_) => f.write_str(none),
    }
}

/// A kind's number, printed as the kind's name.
#[derive(Clone, Copy)]
pub(crate) struct KindNumber(pub(crate) u8);

impl fmt::Display for KindNumber {
    fn fmt<W: fmt::Write>(&self, f: &mut fmt::Formatter<W>) -> fmt::Result {
        write_name::<Kind, W>(f, self.0, "no such kind")
    }
}

/// A component's number, printed as the component's name.
#[derive(Clone, Copy)]
pub(crate) struct ComponentNumber(pub(crate) u8);

impl fmt::Display for ComponentNumber {
    fn fmt<W: fmt::Write>(&self, f: &mut fmt::Formatter<W>) -> fmt::Result {
        write_name::<Component, W>(f, self.0, "no such component")
    }
}

// A call keeps the flag as it was handed in, also one that is none: an enum would have no name for it.
pub(crate) fn clear_name(clear: u8) -> &'static str {
    match clear {
        0 => "a twelfth moves",
        1 => "all is cleared",
        _ => "no such flag",
    }
}
