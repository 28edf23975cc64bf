// Plays a script: each line is a call or a look, an equals sign, and what the rules give for it.
use crate::desk::Desk;
use crate::fields::{Fields, must, same};
use crate::looks::{look, page_is};
use records::Call;
use std::io::Eprint;
use std::test::*;
use tariff::{Fault, Month};

/// That a fault is `refused ROW LAYER ACCOUNT`.
fn refused(fault: Fault, wanted: &str) -> Result<(), Fail> {
    let text = wanted
        .strip_prefix("refused ")
        .ok_or_else(|| Fail::new(fault))?;
    let mut wanted = Fields::from(text);
    wanted.is(fault.row.number())?;
    wanted.is(fault.layer.number())?;
    wanted.is(fault.account_number())
}

/// `done`, `place P`, or `refused ROW LAYER ACCOUNT`.
fn answer_is(answer: Result<Option<u8>, Fault>, wanted: &str) -> Result<(), Fail> {
    match answer {
        Ok(None) => must(wanted == "done", "performed, without a place"),
        Ok(Some(place)) => {
            let text = wanted
                .strip_prefix("place ")
                .ok_or_else(|| Fail::new("performed, with a place"))?;
            Fields::from(text).is(place)
        }
        Err(fault) => refused(fault, wanted),
    }
}

/// The call that a line names.
fn call_of(word: &str, rest: &mut Fields<'_>) -> Result<Option<Call>, Fail> {
    let call = match word {
        "open" => Call::Open {
            account: rest.read()?,
            kind: rest.read()?,
            election: rest.read()?,
            monthly_quantity: rest.read()?,
        },
        "set" => Call::Set {
            account: rest.read()?,
            monthly_quantity: rest.read()?,
        },
        "post" => Call::Post {
            account: rest.read()?,
            day: rest.read()?,
            order: rest.read()?,
            receipts: rest.read()?,
            usage: rest.read()?,
        },
        "adjust" => Call::Adjust {
            account: rest.read()?,
            quantity: rest.read()?,
        },
        "state" => Call::State {
            account: rest.read()?,
            quantity: rest.read()?,
        },
        _ => return trading_call(word, rest),
    };
    Ok(Some(call))
}

fn trading_call(word: &str, rest: &mut Fields<'_>) -> Result<Option<Call>, Fail> {
    let call = match word {
        "offer" => Call::Offer {
            giver: rest.read()?,
            gives: rest.read()?,
            taker: rest.read()?,
            takes: rest.read()?,
            quantity: rest.read()?,
        },
        "accept" => Call::Accept {
            taker: rest.read()?,
            place: rest.read()?,
        },
        "fold" => Call::Fold {
            member: rest.read()?,
            agent: rest.read()?,
        },
        "settle" => Call::Settle {
            account: rest.read()?,
            clear: rest.read()?,
        },
        "close" => Call::Close,
        _ => return Ok(None),
    };
    Ok(Some(call))
}

/// The month of the next two fields, year and number.
fn month_of(rest: &mut Fields<'_>) -> Result<Month, Fail> {
    Month::new(rest.read()?, rest.read()?).ok_or_else(|| Fail::new("no such month"))
}

impl<'a> Desk<'a> {
    /// Asks with cards of the statement month and of the running month.
    fn ask_usual(&mut self, call: &Call) -> Result<Result<Option<u8>, Fault>, Fail> {
        let settling = self.book.statement_month();
        let closing = self.book.running_month();
        self.ask(call, &settling, &closing)
    }

    /// A call with cards of the statement month and of the running month.
    fn usual(&mut self, call: &Call, wanted: &str) -> Result<(), Fail> {
        answer_is(self.ask_usual(call)?, wanted)
    }

    /// Posts all days of the month that are left, each with this flag, these receipts and this usage.
    fn days(&mut self, rest: &mut Fields<'_>) -> Result<(), Fail> {
        let account = rest.read()?;
        let order = rest.read()?;
        let receipts = rest.read()?;
        let usage = rest.read()?;
        let posted = self.book.page(account).map_err(Fail::new)?.posted.day;
        let days = self.book.running_month().days();
        // Days have numbers from 1 on, which a call holds.
        for day in (1..=days).filter(|day| *day > posted) {
            let call = Call::Post {
                account,
                day,
                order,
                receipts,
                usage,
            };
            self.usual(&call, "done")?;
        }
        Ok(())
    }

    /// Lays so many offers of 1 Dth from account 0 to account 1.
    fn lay(&mut self, count: u8) -> Result<(), Fail> {
        let call = Call::Offer {
            giver: 0,
            gives: 1,
            taker: 1,
            takes: 1,
            quantity: 1,
        };
        // Places have numbers from 0 on, in the order in which offers are given them.
        for place in 0..count {
            let given = self.ask_usual(&call)?.map_err(Fail::new)?;
            same(given.ok_or_else(|| Fail::new("no place"))?, place)?;
        }
        Ok(())
    }

    /// The page of an account, whose gas is its number in the tally, or its refusal.
    fn page(&self, account: u8, wanted: &str) -> Result<(), Fail> {
        // A match, and no `?`: a refusal is an answer, and may be the one that is wanted.
        match self.book.page(account) {
            Ok(page) => {
                same(self.tally.number(account), page.gas_held())?;
                page_is(&page, wanted)
            }
            Err(fault) => refused(fault, wanted),
        }
    }

    /// A call with cards of another month: year, number, then the fields of the call.
    fn with_other_cards(
        &mut self,
        word: &str,
        rest: &mut Fields<'_>,
        wanted: &str,
    ) -> Result<(), Fail> {
        let month = month_of(rest)?;
        let call = call_of(word, rest)?.ok_or_else(|| Fail::new("no such call"))?;
        answer_is(self.ask(&call, &month, &month)?, wanted)
    }

    /// A call of the ten, or else a look.
    fn call_or_look(&mut self, word: &str, rest: &str, wanted: &str) -> Result<(), Fail> {
        match call_of(word, &mut Fields::from(rest))? {
            Some(call) => self.usual(&call, wanted),
            None => {
                let place = match rest {
                    "" => 0,
                    _ => rest.parse::<usize>()?,
                };
                look(self, word, place, wanted)
            }
        }
    }

    fn step(&mut self, asked: &str, wanted: &str) -> Result<(), Fail> {
        let (word, rest) = asked.split_once(' ').unwrap_or((asked, ""));
        let mut fields = Fields::from(rest);
        match word {
            "days" => self.days(&mut fields),
            "page" => self.page(fields.read()?, wanted),
            "lay" => self.lay(fields.read()?),
            "settle-with" => self.with_other_cards("settle", &mut fields, wanted),
            "close-with" => self.with_other_cards("close", &mut fields, wanted),
            _ => self.call_or_look(word, rest, wanted),
        }
    }

    /// Plays every line; an empty one is passed over. A line that fails is told.
    pub(crate) fn play(&mut self, rt: &impl Eprint, script: &str) -> Result<(), Fail> {
        for line in script.lines() {
            let played = match line.split_once(" = ") {
                Some((asked, wanted)) => self.step(asked, wanted),
                None => must(line.is_empty(), "a line without an equals sign"),
            };
            played.inspect_err(|_| {
                let _ = eprintln!(rt; "at the line: {line}");
            })?;
        }
        Ok(())
    }
}
