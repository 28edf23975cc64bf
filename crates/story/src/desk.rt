// A clerk's desk: where calls are entered, and what lies on it.
use balancing::{Monthly, SelfBalancing};
use book::Book;
use cards::{AtHand, FixedCard};
use records::{BillLine, Call, Trade};
use register::Register;
use report::{Journal, print_entry, print_pages};
use std::io;

/// The book with its registers, the journal beside it, and the cards at hand for settling and for closing.
#[derive(Drop)]
pub(crate) struct Desk<'b, 't> {
    pub(crate) book: Book<Monthly, SelfBalancing>,
    pub(crate) journal: Journal,
    pub(crate) bills: Register<'b, BillLine>,
    pub(crate) trades: Register<'t, Trade>,
    pub(crate) cards: AtHand<FixedCard, FixedCard>,
}

impl Desk<'_, '_> {
    /// Performs a call, and prints it with its answer.
    pub(crate) fn enter(&mut self, rt: &HostRuntime, call: Call) -> io::Result<()> {
        let entry = self.journal.perform(
            &mut self.book,
            &call,
            &self.cards,
            &mut self.bills,
            &mut self.trades,
        );
        print_entry(rt, &entry)
    }

    /// Posts an account's days of receipts and usage, from the first on; a flow order may be in effect on one of them.
    pub(crate) fn post(
        &mut self,
        rt: &HostRuntime,
        account: u8,
        order_day: Option<u8>,
        days: &[(u64, u64)],
    ) -> io::Result<()> {
        // Days have numbers from 1 on, which a call holds.
        for (day, &(receipts, usage)) in (1..32u8).zip(days) {
            let order = u8::from(order_day == Some(day));
            self.enter(
                rt,
                Call::Post {
                    account,
                    day,
                    order,
                    receipts,
                    usage,
                },
            )?;
        }
        Ok(())
    }

    /// Prints the pages under a heading.
    pub(crate) fn print_pages(&self, rt: &HostRuntime, heading: &str) -> io::Result<()> {
        rt.println(heading)?;
        print_pages(rt, &self.book, &self.journal)
    }
}
