// A journal beside a book: a tally and sums over the calls that were performed.
use crate::sums::Sums;
use balancing::BalancingOption;
use book::Book;
use cards::{AtHand, Card};
use records::{BillLine, Call, Trade};
use register::Register;
use tally::{Tally, Uncounted};
use tariff::Fault;

/// What became of a call: its answer, and whether the tally could count it.
#[derive(Clone, Copy)]
pub struct Entry {
    pub call: Call,
    pub answer: Result<Option<u8>, Fault>,
    pub counted: Result<(), Uncounted>,
}

/// A tally, sums, and how many performed calls the tally could not count.
#[derive(Clone, Copy)]
pub struct Journal {
    pub tally: Tally,
    pub sums: Sums,
    pub uncounted: usize,
}

impl Journal {
    /// A journal without calls.
    pub fn new() -> Journal {
        Journal {
            tally: Tally::new(),
            sums: Sums::new(),
            uncounted: 0,
        }
    }

    /// Counts a performed call, the lines that it wrote and what it made due.
    pub fn count(&mut self, call: &Call, lines: &[BillLine], due: i128) -> Result<(), Uncounted> {
        self.sums.count(call, lines, due);
        let counted = self.tally.feed(call, lines);
        if counted.is_err() {
            self.uncounted = self.uncounted.saturating_add(1);
        }
        counted
    }

    /// Performs a call on a book, and counts it if it was performed.
    pub fn perform<A: BalancingOption, B: BalancingOption, C: Card, D: Card>(
        &mut self,
        book: &mut Book<A, B>,
        call: &Call,
        cards: &AtHand<C, D>,
        bills: &mut Register<'_, BillLine>,
        trades: &mut Register<'_, Trade>,
    ) -> Entry {
        let before = bills.len();
        let due = book.due_by(call, cards);
        let answer = book.perform(call, cards, bills, trades);
        // A match, and no `?`: a refused call stands in the entry as it is, and the tally has nothing to count.
        let counted = match answer {
            Ok(_) => self.count(call, bills.since(before), due),
            Err(_) => Ok(()),
        };
        Entry {
            call: *call,
            answer,
            counted,
        }
    }
}
