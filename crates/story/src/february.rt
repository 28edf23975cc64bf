// February: three accounts open, post their days, and the month is closed.
use crate::days::{AGENT_FEBRUARY, CUSTOMER_FEBRUARY, GROUP_FEBRUARY, ORDER_DAY};
use crate::desk::Desk;
use records::{Call, Election, Kind};
use std::io;

/// A noncore agent that balances monthly.
pub(crate) const AGENT: u8 = 1;

/// A noncore customer that balances monthly, by itself at first.
pub(crate) const CUSTOMER: u8 = 2;

/// A core group that balances itself.
pub(crate) const GROUP: u8 = 3;

fn open_accounts(rt: &HostRuntime, desk: &mut Desk<'_, '_>) -> io::Result<()> {
    rt.println("\nFebruary 2026 begins: three accounts open")?;
    desk.enter(
        rt,
        Call::Open {
            account: AGENT,
            kind: Kind::Noncore.number(),
            election: Election::First.number(),
            monthly_quantity: 43_000,
        },
    )?;
    desk.enter(
        rt,
        Call::Open {
            account: CUSTOMER,
            kind: Kind::Noncore.number(),
            election: Election::First.number(),
            monthly_quantity: 8_000,
        },
    )?;
    desk.enter(
        rt,
        Call::Open {
            account: GROUP,
            kind: Kind::Core.number(),
            election: Election::Second.number(),
            monthly_quantity: 33_600,
        },
    )
}

fn post_days(rt: &HostRuntime, desk: &mut Desk<'_, '_>) -> io::Result<()> {
    rt.println("\nThe agent's days of February; on day 12 a flow order is in effect")?;
    desk.post(rt, AGENT, Some(ORDER_DAY), &AGENT_FEBRUARY)?;
    rt.println("\nThe customer's days")?;
    desk.post(rt, CUSTOMER, Some(ORDER_DAY), &CUSTOMER_FEBRUARY)?;
    rt.println(
        "\nThe core group's days: the order day's imbalance does not count against the daily limit",
    )?;
    desk.post(rt, GROUP, Some(ORDER_DAY), &GROUP_FEBRUARY)
}

/// February, from the opening of the accounts to the closing of the month.
pub(crate) fn tell(rt: &HostRuntime, desk: &mut Desk<'_, '_>) -> io::Result<()> {
    open_accounts(rt, desk)?;
    post_days(rt, desk)?;
    rt.println("\nA late correction of the agent's measured usage")?;
    desk.enter(
        rt,
        Call::Adjust {
            account: AGENT,
            quantity: -85,
        },
    )?;
    desk.print_pages(rt, "\nPages before February is closed, in Dth")?;
    rt.println("\nFebruary is closed with its card")?;
    desk.enter(rt, Call::Close)
}
