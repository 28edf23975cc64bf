// The fields of a script's line.
use std::fmt::{Debug, Display};
use std::str::{FromStr, SplitAsciiWhitespace};
use std::test::*;

/// The fields of a text that are not read yet, from left to right.
#[derive(Drop)]
pub(crate) struct Fields<'a> {
    words: SplitAsciiWhitespace<'a>,
}

impl<'a> From<&'a str> for Fields<'a> {
    fn from(text: &'a str) -> Fields<'a> {
        Fields {
            words: text.split_ascii_whitespace(),
        }
    }
}

impl<'a> Fields<'a> {
    /// The next field.
    pub(crate) fn read<N: FromStr>(&mut self) -> Result<N, Fail>
    where
        N::Err: Debug + Drop,
    {
        let word = self
            .words
            .next()
            .ok_or_else(|| Fail::new("a field is missing"))?;
        Ok(word.parse::<N>()?)
    }

    /// That the next field is this number.
    pub(crate) fn is<N: FromStr + PartialEq + Display + Drop>(
        &mut self,
        number: N,
    ) -> Result<(), Fail>
    where
        N::Err: Debug + Drop,
    {
        same(number, self.read()?)
    }
}

/// That something holds.
pub(crate) fn must(holds: bool, what: &'static str) -> Result<(), Fail> {
    if holds { Ok(()) } else { Err(Fail::new(what)) }
}

/// That a number is the one that is wanted.
pub(crate) fn same<N: PartialEq + Display + Drop>(number: N, wanted: N) -> Result<(), Fail> {
    if number == wanted {
        return Ok(());
    }
    Err(Fail::new(format_args!("{number} in place of {wanted}")))
}
