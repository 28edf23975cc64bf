// Price series and cards on examples worked by hand, and each of their refusals at its edge.
use balancing::TierPrices;
use cards::{Card, FixedCard, IndexCard, Published};
use series::PriceSeries;
use std::process::Abort;
use std::test::Fail;
use tariff::Fault;

/// A refusal by its three numbers: row, layer, account.
fn check_refused<T: Drop>(rt: &impl Abort, answer: Result<T, Fault>, row: u8) -> Result<(), Fail> {
    let fault = answer.err().ok_or("not refused")?;
    assert_eq!(rt; fault.row.number(), row);
    assert_eq!(rt; fault.layer.number(), 2);
    assert_eq!(rt; fault.account_number(), 255);
    Ok(())
}

fn made(year: u16, month: u8, before: u32) -> Result<PriceSeries, Fail> {
    PriceSeries::new(year, month, before).map_err(Fail::new)
}

fn entered(series: &mut PriceSeries, day: u8, price: u32) -> Result<(), Fail> {
    series.enter(day, price).map_err(Fail::new)
}

#[test]
fn days_without_a_price_are_carried_on(rt: HostRuntime) -> Result<(), Fail> {
    let mut series = made(2026, 2, 30_000)?;
    entered(&mut series, 5, 31_000)?;
    entered(&mut series, 3, 29_000)?;
    entered(&mut series, 5, 32_000)?;
    assert_eq!(rt; series.published_days(), 2);
    let table = [
        (1, 30_000),
        (3, 29_000),
        (4, 29_000),
        (5, 32_000),
        (28, 32_000),
    ];
    for (day, price) in table {
        assert_eq!(rt; series.latest_price(day), price);
    }
    Ok(())
}

#[test]
fn refusals_of_series(rt: HostRuntime) -> Result<(), Fail> {
    check_refused(&rt, PriceSeries::new(1999, 12, 0), 1)?;
    check_refused(&rt, PriceSeries::new(2026, 13, 10_000_001), 1)?;
    check_refused(&rt, PriceSeries::new(2026, 2, 10_000_001), 10)?;
    let mut series = made(2026, 2, 10_000_000)?;
    check_refused(&rt, series.enter(0, 0), 1)?;
    check_refused(&rt, series.enter(29, 10_000_001), 1)?;
    check_refused(&rt, series.enter(28, 10_000_001), 10)?;
    assert_eq!(rt; series.published_days(), 0);
    entered(&mut series, 28, 10_000_000)?;
    check_refused(&rt, series.price(0), 1)?;
    check_refused(&rt, series.price(29), 1)?;
    assert!(rt; series.price(28).is_ok());
    Ok(())
}

fn published() -> Result<Published, Fail> {
    Ok(Published {
        malin_a: made(2028, 2, 28_000)?,
        malin_b: made(2028, 2, 28_500)?,
        topock_a: made(2028, 2, 30_000)?,
        topock_b: made(2028, 2, 30_000)?,
        citygate: made(2028, 2, 40_001)?,
        malin_supply: 1,
        topock_supply: 0,
        bid_week: 29_000,
        citygate_index: 40_000,
    })
}

/// A month in which no day was published: five times the doubles of the prices before it.
#[test]
fn card_of_a_month_without_published_days(rt: HostRuntime) -> Result<(), Fail> {
    let card = IndexCard::new(&published()?).map_err(Fail::new)?;
    let working = card.working();
    assert_eq!(rt; working.malin.low, 282_500);
    assert_eq!(rt; working.topock.high, 300_000);
    assert_eq!(rt; working.weighted_low, 28_250);
    assert_eq!(rt; working.citygate_dollars, 5);
    let terms = card.terms();
    assert_eq!(rt; terms.tiers.one_over, 2_118_750);
    assert_eq!(rt; terms.tiers.one_under, 3_625_000);
    assert_eq!(rt; terms.tiers.two_over, 1_412_500);
    assert_eq!(rt; terms.tiers.two_under, 4_500_000);
    assert_eq!(rt; terms.noncompliance, 2_500_000);
    assert_eq!(rt; terms.credit, 58_100);
    Ok(())
}

#[test]
fn refusals_of_cards(rt: HostRuntime) -> Result<(), Fail> {
    let good = published()?;
    let table = [
        (
            Published {
                topock_b: made(2027, 2, 0)?,
                malin_supply: 0,
                bid_week: 10_000_001,
                ..good
            },
            6,
        ),
        (
            Published {
                malin_supply: 0,
                bid_week: 10_000_001,
                ..good
            },
            10,
        ),
        (
            Published {
                citygate_index: 10_000_001,
                ..good
            },
            10,
        ),
        (
            Published {
                topock_supply: 100_000_001,
                ..good
            },
            10,
        ),
        (
            Published {
                malin_supply: 0,
                ..good
            },
            15,
        ),
    ];
    for (wrong, row) in table {
        check_refused(&rt, IndexCard::new(&wrong), row)?;
    }
    assert!(rt;
        IndexCard::new(&Published {
            malin_supply: 0,
            topock_supply: 100_000_000,
            bid_week: 10_000_000,
            ..good
        },)
        .is_ok()
    );
    Ok(())
}

#[test]
fn fixed_cards(rt: HostRuntime) -> Result<(), Fail> {
    let most = TierPrices {
        one_over: 1_500_000_000,
        one_under: 1_500_000_000,
        two_over: 1_500_000_000,
        two_under: 1_500_000_000,
    };
    let card = FixedCard::new(2026, 3, most).map_err(Fail::new)?;
    assert_eq!(rt; card.terms().noncompliance, 1_000_000);
    assert_eq!(rt; card.terms().credit, 5_000);
    assert_eq!(rt; card.terms().tiers.two_over, 1_500_000_000);
    check_refused(&rt, FixedCard::new(2026, 0, most), 1)?;
    let table = [
        TierPrices {
            one_over: 1_500_000_001,
            ..most
        },
        TierPrices {
            one_under: 1_500_000_001,
            ..most
        },
        TierPrices {
            two_over: 1_500_000_001,
            ..most
        },
        TierPrices {
            two_under: 1_500_000_001,
            ..most
        },
    ];
    for prices in table {
        check_refused(&rt, FixedCard::new(2026, 3, prices), 10)?;
    }
    Ok(())
}
