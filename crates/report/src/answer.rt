// The answer of a call, in words.
use std::fmt;
use tariff::Fault;

/// What a call answered: done, done with a place, or a refusal.
#[derive(Clone, Copy)]
pub struct Answer {
    pub result: Result<Option<u8>, Fault>,
}

impl fmt::Display for Answer {
    fn fmt<W: fmt::Write>(&self, f: &mut fmt::Formatter<W>) -> fmt::Result {
        match self.result {
            Ok(None) => write!(f, "done"),
            Ok(Some(place)) => write!(f, "done, place {place}"),
            Err(fault) => write!(f, "{fault}"),
        }
    }
}
