// March: the customer joins the agent, February is traded and settled, March is posted and closed.
use crate::days::{AGENT_MARCH, GROUP_MARCH};
use crate::desk::Desk;
use crate::february::{AGENT, CUSTOMER, GROUP};
use records::{Call, Component};
use std::io;

fn begin(rt: &HostRuntime, desk: &mut Desk<'_, '_>) -> io::Result<()> {
    rt.println(
        "\nMarch 2026 begins: the customer joins the agent, and the core group has a new monthly quantity",
    )?;
    desk.enter(
        rt,
        Call::Fold {
            member: CUSTOMER,
            agent: AGENT,
        },
    )?;
    desk.enter(
        rt,
        Call::Set {
            account: GROUP,
            monthly_quantity: 30_500,
        },
    )
}

/// The days of March, none of which has a flow order.
fn post_days(rt: &HostRuntime, desk: &mut Desk<'_, '_>) -> io::Result<()> {
    rt.println("\nThe agent's days of March, now with the customer's gas")?;
    desk.post(rt, AGENT, None, &AGENT_MARCH)?;
    rt.println("\nThe core group's days")?;
    desk.post(rt, GROUP, None, &GROUP_MARCH)
}

/// The core group's operating statement, and a trade from its option to the agent's.
fn trade(rt: &HostRuntime, desk: &mut Desk<'_, '_>) -> io::Result<()> {
    rt.println("\nFebruary's operating statement of the core group")?;
    desk.enter(
        rt,
        Call::State {
            account: GROUP,
            quantity: -1_250,
        },
    )?;
    rt.println(
        "\nThe core group trades over-delivery of February to the agent, who was under; the offer counts once",
    )?;
    desk.enter(
        rt,
        Call::Offer {
            giver: GROUP,
            gives: Component::Statement.number(),
            taker: AGENT,
            takes: Component::Statement.number(),
            quantity: 150,
        },
    )?;
    desk.enter(
        rt,
        Call::Accept {
            taker: AGENT,
            place: 0,
        },
    )?;
    desk.enter(
        rt,
        Call::Accept {
            taker: AGENT,
            place: 0,
        },
    )
}

/// Both accounts are settled; the month cannot be closed before.
fn settle(rt: &HostRuntime, desk: &mut Desk<'_, '_>) -> io::Result<()> {
    rt.println("\nThe agent is settled with February's card")?;
    desk.enter(
        rt,
        Call::Settle {
            account: AGENT,
            clear: 0,
        },
    )?;
    rt.println(
        "\nClosing March is too early, since the core group is not settled; then it is, and a twelfth of its carryover moves",
    )?;
    desk.enter(rt, Call::Close)?;
    desk.enter(
        rt,
        Call::Settle {
            account: GROUP,
            clear: 0,
        },
    )
}

/// March, from its first day to its closing.
pub(crate) fn tell(rt: &HostRuntime, desk: &mut Desk<'_, '_>) -> io::Result<()> {
    begin(rt, desk)?;
    post_days(rt, desk)?;
    trade(rt, desk)?;
    settle(rt, desk)?;
    desk.print_pages(rt, "\nPages before March is closed, in Dth")?;
    rt.println("\nMarch is closed with its card")?;
    desk.enter(rt, Call::Close)
}
