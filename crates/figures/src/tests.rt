// Examples with published figures, and the edges of months, money, options and refusals.
use balancing::{
    BalancingOption, FlowOrder, GasDay, Monthly, Parts, SelfBalancing, Statement, TierPrices,
};
use std::iter;
use std::test::Fail;
use tariff::{BillKind, Charge, Fault, Layer, Month, Row, billed_cents, exact_amount};

/// A self-balancing customer with a demand of 50,000 Dth a day and a monthly quantity of 1,500,000 Dth: each day's supply, and
/// what the day has above each limit.
#[test]
fn four_days_of_a_self_balancing_customer(rt: HostRuntime) -> Result<(), Fail> {
    let days = [
        (60_000, 5_000, 0),
        (55_000, 0, 0),
        (55_000, 0, 5_000),
        (40_000, 5_000, 0),
    ];
    let mut running: i64 = 0;
    for (supply, daily, accumulated) in days {
        running = running.wrapping_add(i64::from(supply) - 50_000);
        let excess = SelfBalancing.excess(&GasDay {
            receipts: supply,
            usage: 50_000,
            order: FlowOrder::Absent,
            monthly_quantity: 1_500_000,
            accumulated: i32::try_from(running)?,
        });
        assert_eq!(rt; excess.daily, daily);
        assert_eq!(rt; excess.accumulated, accumulated);
    }
    assert_eq!(rt; running, 10_000);
    Ok(())
}

fn five_percent() -> Result<Monthly, Fail> {
    Monthly::new(5).map_err(Fail::new)
}

/// Only the part in a tier has that tier's price: a hundred and one Dth under are not all priced at Tier II.
#[test]
fn each_part_has_the_price_of_its_own_tier(rt: HostRuntime) -> Result<(), Fail> {
    let parts = five_percent()?.split(&Statement {
        usage: 1_000,
        monthly_quantity: 0,
        imbalance: -101,
    });
    let prices = TierPrices {
        one_over: 1_000_000,
        one_under: 4_000_000,
        two_over: 500_000,
        two_under: 6_000_000,
    };
    let cashout = prices.cash_out(&parts);
    let one = cashout.tier_one.ok_or("no line for Tier I")?;
    let two = cashout.tier_two.ok_or("no line for Tier II")?;
    assert_eq!(rt; one.quantity, -50);
    assert_eq!(rt; one.price, 4_000_000);
    assert_eq!(rt; one.cents.count, 20_000);
    assert_eq!(rt; two.quantity, -1);
    assert_eq!(rt; two.price, 6_000_000);
    assert_eq!(rt; two.cents.count, 600);
    assert_eq!(rt; cashout.total.count, 20_600);
    Ok(())
}

/// What is kept is not billed, and over-delivery is paid to the agent.
#[test]
fn no_line_for_no_gas(rt: HostRuntime) {
    let prices = TierPrices {
        one_over: 1_255_000,
        one_under: 1,
        two_over: 2,
        two_under: 3,
    };
    let kept = prices.cash_out(&Parts {
        kept: 50,
        tier_one: 0,
        tier_two: 0,
    });
    assert!(rt; kept.tier_one.is_none());
    assert!(rt; kept.tier_two.is_none());
    assert_eq!(rt; kept.total.count, 0);
    let over = prices.cash_out(&Parts {
        kept: 50,
        tier_one: 3,
        tier_two: 0,
    });
    assert!(rt; over.tier_two.is_none());
    assert_eq!(rt; over.total.count, -377);
}

#[test]
fn tolerances(rt: HostRuntime) -> Result<(), Fail> {
    // Over numbers that are percentages, and no places of a list.
    for percent in 0..=255u8 {
        match Monthly::new(percent) {
            Ok(option) => {
                assert!(rt; (3..=5).contains(&percent));
                assert_eq!(rt; option.tolerance.percent(), percent);
            }
            Err(fault) => {
                assert!(rt; !(3..=5).contains(&percent));
                assert_eq!(rt; fault.row.number(), 1);
                assert_eq!(rt; fault.layer.number(), 1);
                assert_eq!(rt; fault.account_number(), 255);
            }
        }
    }
    assert_eq!(rt; five_percent()?.letter(), 'M');
    assert!(rt; !five_percent()?.earns());
    assert_eq!(rt; SelfBalancing.letter(), 'S');
    assert!(rt; SelfBalancing.earns());
    Ok(())
}

/// The largest values of the types are split and rounded too.
#[test]
fn edges_of_the_types(rt: HostRuntime) -> Result<(), Fail> {
    let all_under = five_percent()?.split(&Statement {
        usage: 0,
        monthly_quantity: u32::MAX,
        imbalance: i32::MIN,
    });
    assert_eq!(rt; all_under.kept, 0);
    assert_eq!(rt; all_under.tier_one, 0);
    assert_eq!(rt; all_under.tier_two, i32::MIN);
    let all_kept = SelfBalancing.split(&Statement {
        usage: 0,
        monthly_quantity: u32::MAX,
        imbalance: 42_949_672,
    });
    assert_eq!(rt; all_kept.kept, 42_949_672);
    let excess = SelfBalancing.excess(&GasDay {
        receipts: u32::MAX,
        usage: 0,
        order: FlowOrder::InEffect,
        monthly_quantity: 0,
        accumulated: i32::MIN,
    });
    assert_eq!(rt; excess.daily, 0);
    assert_eq!(rt; excess.accumulated, 2_147_483_648);
    assert_eq!(rt;
        billed_cents(i128::MIN).count,
        -17_014_118_346_046_923_173_168_730_371_588_411
    );
    assert_eq!(rt;
        exact_amount(i64::MIN, u32::MAX),
        -39_614_081_247_908_796_759_917_199_360
    );
    Ok(())
}

#[test]
fn half_a_cent_goes_away_from_zero(rt: HostRuntime) {
    let table = [
        (0, 0),
        (4_999, 0),
        (5_000, 1),
        (-4_999, 0),
        (-5_000, -1),
        (14_999, 1),
        (15_000, 2),
        (-3_765_000, -377),
    ];
    for (amount, cents) in table {
        assert_eq!(rt; billed_cents(amount).count, cents);
    }
    assert_eq!(rt;
        Charge::new(BillKind::Credit, 1_000, 58_100).cents.count,
        -5_810
    );
    assert_eq!(rt;
        Charge::new(BillKind::AccumulatedExcess, 5_000, 1_000_000)
            .cents
            .count,
        500_000
    );
}

#[test]
fn lengths_of_months(rt: HostRuntime) -> Result<(), Fail> {
    let table = [
        (2000, 1, 31),
        (2000, 2, 29),
        (2001, 2, 28),
        (2024, 2, 29),
        (2026, 4, 30),
        (2096, 2, 29),
        (2099, 2, 28),
        (2099, 12, 31),
    ];
    for (year, number, days) in table {
        let month = Month::new(year, number).ok_or("no such month")?;
        assert_eq!(rt; month.days(), days);
    }
    for (year, number) in [(1999, 12), (2100, 1), (2026, 0), (2026, 13)] {
        assert!(rt; Month::new(year, number).is_none());
    }
    Ok(())
}

/// From January 2000 to December 2099 there are 1,200 months and 36,525 days.
#[test]
fn a_century_of_months(rt: HostRuntime) -> Result<(), Fail> {
    let months: Vec<Month> = iter::successors(Month::new(2000, 1), |month| month.next())
        .take(1_300)
        .collect(rt.alloc())?;
    let first = months.first().ok_or("no January 2000")?;
    assert!(rt; first.previous().is_none());
    for (month, next) in months.iter().zip(months.iter().skip(1)) {
        assert!(rt; next.previous() == Some(*month));
        assert!(rt; next != month);
    }
    let last = months.last().ok_or("no last month")?;
    assert_eq!(rt; last.year(), 2099);
    assert_eq!(rt; last.number(), 12);
    assert_eq!(rt; months.len(), 1_200);
    let days = months.iter().fold(
        0u32,
        |days, month| days.wrapping_add(u32::from(month.days())),
    );
    assert_eq!(rt; days, 36_525);
    Ok(())
}

#[test]
fn printed_forms(rt: HostRuntime) -> Result<(), Fail> {
    let heap = rt.alloc();
    let march = Month::new(2026, 3).ok_or("no March")?;
    assert_eq!(rt; format!(in heap; "{march}")?.as_str(), "2026-03");
    let december = Month::new(2099, 12).ok_or("no December")?;
    assert_eq!(rt; format!(in heap; "{december}")?.as_str(), "2099-12");
    let cents = billed_cents(-3_765_000);
    assert_eq!(rt; format!(in heap; "{cents}")?.as_str(), "-3.77");
    let few = billed_cents(50_000);
    assert_eq!(rt; format!(in heap; "{few}")?.as_str(), "0.05");
    let fault = Fault {
        row: Row::PastLimit,
        layer: Layer::Book,
        account: Some(7),
    };
    assert_eq!(rt;
        format!(in heap; "{fault}")?.as_str(),
        "refusal 10 (book, account 7): a quantity or a price passes its limit"
    );
    let none = Fault::by_card(Row::NoSupply);
    assert_eq!(rt;
        format!(in heap; "{none}")?.as_str(),
        "refusal 15 (card): both supply amounts are zero"
    );
    Ok(())
}
