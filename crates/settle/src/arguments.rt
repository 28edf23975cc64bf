// Reads the command line.
// Not by the kit's `clap`, which words its complaints itself: each one here is a line of this program's own words.
use crate::request::{Choice, Layout, Request, sample};
use balancing::{Monthly, Statement, TierPrices};
use decimal::{Decimals, read_amount};
use thiserror::Error;

const OPTION: &str = "--option";

const TOLERANCE: &str = "--tolerance";

const USAGE: &str = "--usage";

const MONTHLY_QUANTITY: &str = "--monthly-quantity";

const IMBALANCE: &str = "--imbalance";

const TIER_ONE_OVER: &str = "--tier-one-over";

const TIER_ONE_UNDER: &str = "--tier-one-under";

const TIER_TWO_OVER: &str = "--tier-two-over";

const TIER_TWO_UNDER: &str = "--tier-two-under";

const FORMAT: &str = "--format";

const PRICES: &str = "--prices";

/// The arguments of the task `quote`.
const QUOTE_FLAGS: [&str; 10] = [
    OPTION,
    TOLERANCE,
    USAGE,
    MONTHLY_QUANTITY,
    IMBALANCE,
    TIER_ONE_OVER,
    TIER_ONE_UNDER,
    TIER_TWO_OVER,
    TIER_TWO_UNDER,
    FORMAT,
];

/// The arguments of the task `prices`.
const PRICES_FLAGS: [&str; 2] = [PRICES, FORMAT];

/// The largest quantity that the book takes, in Dth.
const MOST: u32 = 100_000_000;

/// The largest card price, in millionths of a dollar.
const MOST_PRICE: u32 = 1_500_000_000;

/// What the program is asked to do.
#[derive(Clone, Copy)]
pub(crate) enum Command<'a> {
    Quote(Request),
    Prices(&'a str, Layout),
    Help,
    Version,
}

/// Why the command line is not understood.
#[derive(Clone, Copy, Debug, Error)]
pub(crate) enum Complaint<'a> {
    #[error("'{0}' is no task of this program; 'settle --help' lists them")]
    UnknownCommand(&'a str),
    #[error("{0}: there is no such argument; 'settle --help' lists them")]
    UnknownArgument(&'a str),
    #[error("{0}: a value is missing after it")]
    NoValue(&'a str),
    #[error("{0}: given twice")]
    GivenTwice(&'a str),
    #[error("{0}: missing; 'settle --help' has an example")]
    Absent(&'static str),
    #[error("{0}: '{1}' is not {2}")]
    Unfit(&'static str, &'a str, &'static str),
    #[error("--tolerance: only the monthly option has one")]
    NoTolerance,
}

/// Flags, each with the word after it as its value.
#[derive(Clone, Copy)]
struct Pairs<'a> {
    words: &'a [String],
}

impl<'a> Pairs<'a> {
    /// Takes the words in pairs. Each flag is one of `flags` and given once, with a value after it; else the first fault from the left is told.
    fn new(words: &'a [String], flags: &[&'a str]) -> Result<Pairs<'a>, Complaint<'a>> {
        // By place, to look back over the flags before: a set of those would want memory, for ten flags at most.
        for (i, pair) in words.chunks(2).enumerate() {
            let mut earlier = words.chunks(2).take(i);
            match pair {
                [flag, ..] if !flags.contains(&flag.as_str()) => {
                    return Err(Complaint::UnknownArgument(flag.as_str()));
                }
                [flag, ..] if earlier.any(|pair| pair.first() == Some(flag)) => {
                    return Err(Complaint::GivenTwice(flag.as_str()));
                }
                [flag] => return Err(Complaint::NoValue(flag.as_str())),
                _ => {}
            }
        }
        Ok(Pairs { words })
    }

    /// The value of a flag, if it is given.
    fn given(&self, flag: &str) -> Option<&'a str> {
        self.words.chunks(2).find_map(|pair| match pair {
            [word, value] if word.as_str() == flag => Some(value.as_str()),
            _ => None,
        })
    }

    fn required(&self, flag: &'static str) -> Result<&'a str, Complaint<'a>> {
        self.given(flag).ok_or(Complaint::Absent(flag))
    }

    /// The value of a flag as `read` reads it.
    fn read<T, F: FnOnce(&str) -> Option<T>>(
        &self,
        flag: &'static str,
        wanted: &'static str,
        read: F,
    ) -> Result<T, Complaint<'a>>
        requires { F.IsAlwaysCallable read }
    {
        let text = self.required(flag)?;
        read(text).ok_or(Complaint::Unfit(flag, text, wanted))
    }

    fn quantity(&self, flag: &'static str) -> Result<u32, Complaint<'a>> {
        self.read(flag, "a whole number of Dth from 0 to 100000000", |text| {
            text.parse::<u32>().ok().filter(|n| *n <= MOST)
        })
    }

    fn imbalance(&self) -> Result<i32, Complaint<'a>> {
        self.read(
            IMBALANCE,
            "a whole number of Dth from -100000000 to 100000000",
            |text| {
                text.parse::<i32>()
                    .ok()
                    .filter(|n| n.unsigned_abs() <= MOST)
            },
        )
    }

    fn price(&self, flag: &'static str) -> Result<u32, Complaint<'a>> {
        self.read(
            flag,
            "an amount in dollars from 0 to 1500 with at most six decimals",
            |text| {
                read_amount(text.as_bytes(), Decimals::Six)
                    .and_then(|n| u32::try_from(n).ok())
                    .filter(|n| *n <= MOST_PRICE)
            },
        )
    }

    /// Five percent if no tolerance is given.
    fn tolerance(&self) -> Result<Monthly, Complaint<'a>> {
        let text = self.given(TOLERANCE).unwrap_or("5");
        text.parse::<u8>()
            .ok()
            .and_then(|percent| Monthly::new(percent).ok())
            .ok_or(Complaint::Unfit(TOLERANCE, text, "3, 4 or 5 percent"))
    }

    fn choice(&self) -> Result<Choice, Complaint<'a>> {
        match self.required(OPTION)? {
            "monthly" => self.tolerance().map(Choice::Monthly),
            "self-balancing" if self.given(TOLERANCE).is_some() => Err(Complaint::NoTolerance),
            "self-balancing" => Ok(Choice::SelfBalancing),
            text => Err(Complaint::Unfit(OPTION, text, "'monthly' or 'self-balancing'")),
        }
    }

    /// A table if no format is given.
    fn layout(&self) -> Result<Layout, Complaint<'a>> {
        match self.given(FORMAT).unwrap_or("table") {
            "table" => Ok(Layout::Table),
            "csv" => Ok(Layout::Csv),
            text => Err(Complaint::Unfit(FORMAT, text, "'table' or 'csv'")),
        }
    }

    fn statement(&self) -> Result<Statement, Complaint<'a>> {
        Ok(Statement {
            usage: self.quantity(USAGE)?,
            monthly_quantity: self.quantity(MONTHLY_QUANTITY)?,
            imbalance: self.imbalance()?,
        })
    }

    fn prices(&self) -> Result<TierPrices, Complaint<'a>> {
        Ok(TierPrices {
            one_over: self.price(TIER_ONE_OVER)?,
            one_under: self.price(TIER_ONE_UNDER)?,
            two_over: self.price(TIER_TWO_OVER)?,
            two_under: self.price(TIER_TWO_UNDER)?,
        })
    }

    fn request(&self) -> Result<Request, Complaint<'a>> {
        Ok(Request {
            choice: self.choice()?,
            statement: self.statement()?,
            prices: self.prices()?,
            layout: self.layout()?,
        })
    }
}

fn read_quote_task(words: &[String]) -> Result<Command<'_>, Complaint<'_>> {
    let pairs = Pairs::new(words, &QUOTE_FLAGS)?;
    Ok(Command::Quote(pairs.request()?))
}

fn read_prices_task(words: &[String]) -> Result<Command<'_>, Complaint<'_>> {
    let pairs = Pairs::new(words, &PRICES_FLAGS)?;
    Ok(Command::Prices(pairs.required(PRICES)?, pairs.layout()?))
}

/// Whether help is asked for, anywhere on the line.
fn asks_for_help(words: &[String]) -> bool {
    words
        .iter()
        .any(|word| matches!(word.as_str(), "--help" | "-h"))
}

/// What the words after the program's name ask for. With none, or with the task alone, the sample is quoted.
pub(crate) fn read_command(words: &[String]) -> Result<Command<'_>, Complaint<'_>> {
    if asks_for_help(words) {
        return Ok(Command::Help);
    }
    let Some((task, rest)) = words.split_first() else {
        return Ok(Command::Quote(sample()));
    };
    match task.as_str() {
        "help" => Ok(Command::Help),
        "--version" => Ok(Command::Version),
        "prices" => read_prices_task(rest),
        "quote" if rest.is_empty() => Ok(Command::Quote(sample())),
        "quote" => read_quote_task(rest),
        word => Err(Complaint::UnknownCommand(word)),
    }
}
