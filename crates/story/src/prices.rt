// The price cards of the story.
use balancing::TierPrices;
use cards::{Card, FixedCard};
use report::Dollars;
use std::io;
use tariff::Fault;

/// The cards of three months.
#[derive(Clone, Copy)]
pub(crate) struct Cards {
    pub(crate) january: FixedCard,
    pub(crate) february: FixedCard,
    pub(crate) march: FixedCard,
}

impl Cards {
    pub(crate) fn new() -> Result<Cards, Fault> {
        Ok(Cards {
            january: FixedCard::new(
                2026,
                1,
                TierPrices {
                    one_over: 2_718_750,
                    one_under: 5_093_750,
                    two_over: 1_722_500,
                    two_under: 6_510_000,
                },
            )?,
            february: FixedCard::new(
                2026,
                2,
                TierPrices {
                    one_over: 2_541_225,
                    one_under: 4_836_875,
                    two_over: 1_610_500,
                    two_under: 6_195_750,
                },
            )?,
            march: FixedCard::new(
                2026,
                3,
                TierPrices {
                    one_over: 2_283_150,
                    one_under: 4_402_500,
                    two_over: 1_447_250,
                    two_under: 5_598_750,
                },
            )?,
        })
    }
}

// Price by price, and no loop: between the columns stand blanks of different widths.
fn print_card(rt: &HostRuntime, card: &FixedCard) -> io::Result<()> {
    let terms = card.terms();
    let month = terms.month;
    let one_over = Dollars::OnCard(terms.tiers.one_over);
    let one_under = Dollars::OnCard(terms.tiers.one_under);
    let two_over = Dollars::OnCard(terms.tiers.two_over);
    let two_under = Dollars::OnCard(terms.tiers.two_under);
    let noncompliance = Dollars::OnCard(terms.noncompliance);
    let credit = Dollars::OnCard(terms.credit);
    println!(rt;
        "  {month}     {one_over}      {one_under}      {two_over}       {two_under}       {noncompliance}  {credit}"
    )
}

/// A table of the cards.
pub(crate) fn print_cards(rt: &HostRuntime, cards: &Cards) -> io::Result<()> {
    rt.println(
        "\nPrice cards, in dollars a Dth\n  month    Tier I over  Tier I under  Tier II over  Tier II under  noncompliance    credit",
    )?;
    for card in [&cards.january, &cards.february, &cards.march] {
        print_card(rt, card)?;
    }
    Ok(())
}
