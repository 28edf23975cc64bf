// Scripts of calls on an empty book, each with the answer that the rules give.
// A fixed card has a noncompliance price of 1 dollar and a credit of half a cent; the cashout prices are those of the desk.

/// Opening, and reading pages.
pub(crate) const OPENING: &str = "open 64 1 1 0 = refused 1 1 255
open 63 1 1 0 = done
open 0 0 1 0 = refused 1 1 255
open 0 3 1 0 = refused 1 1 255
open 0 2 0 0 = refused 1 1 255
open 0 2 3 0 = refused 1 1 255
open 0 0 1 100000001 = refused 1 1 255
open 0 1 2 100000001 = refused 10 1 0
open 0 1 2 100000000 = done
open 0 1 2 100000001 = refused 3 1 0
open 0 3 2 0 = refused 1 1 255
page 0 = 0 0 0 0 0 1 0 0 100000000 0 0 0 0
page 1 = refused 2 1 1
page 64 = refused 1 1 255
";

/// Setting, posting and adjusting. A month's usage stays below its limit and a sum of excesses at most reaches its own, so neither can be passed by posting.
pub(crate) const DAYS: &str = "open 0 1 1 1000 = done
open 1 2 2 1200 = done
set 64 5 = refused 1 1 255
set 2 100000001 = refused 2 1 2
set 0 100000001 = refused 10 1 0
set 0 100000000 = done
set 0 0 = done
post 64 1 0 0 0 = refused 1 1 255
post 0 0 0 0 0 = refused 1 1 255
post 2 32 0 0 0 = refused 1 1 255
post 0 31 0 0 0 = refused 7 1 0
post 0 1 2 0 0 = refused 1 1 255
post 2 9 0 0 0 = refused 2 1 2
post 0 2 0 3000001 0 = refused 7 1 0
post 0 1 0 3000001 0 = refused 10 1 0
post 0 1 0 0 3000001 = refused 10 1 0
post 0 1 1 3000000 3000000 = done
page 0 = 0 0 0 0 0 1 1 3000000 0 0 0 0 0
set 0 100000001 = refused 7 1 0
post 0 1 0 0 0 = refused 7 1 0
post 0 3 0 0 0 = refused 7 1 0
post 0 2 0 0 0 = done
post 1 1 0 1100 1000 = done
page 1 = 100 0 0 0 0 1 1 1000 1200 0 88 0 0
adjust 1 -100 = done
post 1 2 0 1101 1000 = done
page 1 = 101 0 0 0 0 1 2 2000 1200 1 177 0 0
adjust 1 -101 = done
post 1 3 1 1101 1000 = done
page 1 = 101 0 0 0 0 1 3 3000 1200 1 266 0 0
adjust 1 -86 = done
post 1 4 0 1000 1000 = done
page 1 = 15 0 0 0 0 1 4 4000 1200 1 269 0 0
adjust 64 0 = refused 1 1 255
adjust 2 100000001 = refused 2 1 2
adjust 0 100000001 = refused 10 1 0
adjust 0 100000000 = done
post 0 3 0 1 0 = refused 10 1 0
post 0 3 0 0 1 = done
adjust 0 2 = refused 10 1 0
adjust 0 1 = done
adjust 0 -100000001 = refused 10 1 0
adjust 0 -100000000 = done
adjust 0 -100000000 = done
adjust 0 -1 = refused 10 1 0
post 0 4 0 0 1 = refused 10 1 0
post 0 4 0 0 0 = done
days 0 0 1000 1000 = done
post 0 29 0 0 0 = refused 7 1 0
gas = -99999985
";

/// February 2000 has 29 days.
pub(crate) const LEAP: &str = "open 0 1 1 0 = done
settle 0 0 = refused 8 1 0
settle-with 2000 2 0 0 = refused 6 1 255
close-with 2000 1 = refused 6 1 255
days 0 0 5 5 = done
page 0 = 0 0 0 0 0 1 29 145 0 0 0 0 0
post 0 30 0 0 0 = refused 7 1 0
close = done
month = 2000 3
";

/// December 2099 is never closed.
pub(crate) const LAST: &str = "open 0 1 1 0 = done
close = refused 6 1 255
settle 0 0 = refused 8 1 0
settle-with 2099 12 0 0 = refused 6 1 255
days 0 0 5 5 = done
close = refused 6 1 255
";

/// Two closings, with the lines of an option that earns the credit and of one that does not.
pub(crate) const CLOSING: &str = "open 5 1 1 1000 = done
open 3 2 2 1200 = done
close-with 2026 1 = refused 6 1 255
close = refused 7 1 3
days 3 0 1100 1000 = done
close = refused 7 1 5
days 5 0 1000 1010 = done
close-with 2026 3 = refused 6 1 255
close = done
month = 2026 3
page 3 = 0 2800 0 0 0 0 0 0 1200 0 0 28000 1200
page 5 = 0 -280 0 0 0 0 0 0 1000 0 0 28280 1000
bills 2 = written
bill 0 = 3 2026 2 4 40264 1000000 4026400
bill 1 = 3 2026 2 5 28000 5000 -14000
close = refused 7 1 3
days 3 0 1000 1000 = done
days 5 0 1000 1000 = done
close = refused 8 1 3
settle 3 0 = done
bill 2 = 3 2026 2 2 2788 1 0
page 3 = 0 0 0 0 12 1 31 31000 1200 0 0 0 0
settle 3 0 = refused 8 1 3
close = refused 8 1 5
settle 5 0 = done
bills 3 = written
page 5 = 0 0 0 0 -280 1 31 31000 1000 0 0 0 0
close = done
bill 3 = 3 2026 3 5 31000 5000 -15500
bills 4 = written
month = 2026 4
page 3 = 12 0 0 0 0 0 0 0 1200 0 0 31000 1200
page 5 = -280 0 0 0 0 0 0 0 1000 0 0 31000 1000
gas = -268
";

/// Settling: a twelfth of -25 is -2; a rest of 4,999 is cleared and one of 5,000 is not.
pub(crate) const SETTLING: &str = "open 0 1 1 0 = done
open 1 2 1 0 = done
settle 0 0 = refused 8 1 0
settle-with 2026 2 0 0 = refused 6 1 255
state 0 100000001 = refused 4 1 0
state 1 100000001 = refused 8 1 1
days 0 0 1000 1000 = done
days 1 0 1000 1000 = done
close = done
settle 64 0 = refused 1 1 255
settle 2 2 = refused 1 1 255
settle 2 1 = refused 2 1 2
settle-with 2026 3 0 1 = refused 4 1 0
settle-with 2026 3 0 0 = refused 6 1 255
settle-with 2026 1 0 0 = refused 6 1 255
state 64 0 = refused 1 1 255
state 2 0 = refused 2 1 2
state 1 100000001 = refused 10 1 1
state 1 100000000 = done
state 1 1 = refused 10 1 1
state 1 -100000000 = done
state 1 -100000001 = refused 10 1 1
state 1 -100000000 = done
state 1 -1 = refused 10 1 1
state 1 100000000 = done
state 1 -25 = done
settle 1 0 = done
page 1 = 0 0 0 -23 -2 1 0 0 0 0 0 0 0
settle 0 0 = done
days 0 0 1000 1000 = done
days 1 0 1000 1000 = done
close = done
bills 0 = written
state 1 5477 = done
settle 1 1 = refused 9 1 1
state 1 -1 = done
settle 1 1 = done
page 1 = -2 0 0 0 5453 1 0 0 0 0 0 0 0
settle-with 2026 4 1 1 = refused 6 1 255
settle 0 0 = done
days 0 0 1000 1000 = done
days 1 0 1000 1000 = done
close = done
state 1 -5454 = done
settle 1 1 = refused 9 1 1
settle-with 2026 5 1 1 = refused 6 1 255
state 1 1 = done
settle 1 1 = done
page 1 = 5453 0 0 0 -5455 1 0 0 0 0 0 0 0
gas = -2
";

/// What is past the band goes to Tier I and Tier II, each at its own price; three Dth at 1.255 dollars are 377 cents.
pub(crate) const TIERS: &str = "open 0 1 1 0 = done
open 1 1 1 0 = done
open 2 1 1 0 = done
open 3 1 1 0 = done
adjust 0 53 = done
adjust 1 -101 = done
adjust 2 50 = done
adjust 3 7 = done
post 0 1 0 1000 1000 = done
post 1 1 0 1000 1000 = done
post 2 1 0 1000 1000 = done
days 0 0 0 0 = done
days 1 0 0 0 = done
days 2 0 0 0 = done
days 3 0 0 0 = done
close = done
bills 0 = written
settle 0 0 = done
settle 1 0 = done
settle 2 0 = done
settle 3 0 = done
bills 4 = written
bill 0 = 0 2026 2 1 3 1255000 -377
bill 1 = 1 2026 2 1 -50 4000000 20000
bill 2 = 1 2026 2 2 -1 1500000000 150000
bill 3 = 3 2026 2 2 7 1 0
page 0 = 0 0 0 0 50 1 0 0 0 0 0 0 0
page 1 = 0 0 0 0 -50 1 0 0 0 0 0 0 0
page 2 = 0 0 0 0 50 1 0 0 0 0 0 0 0
page 3 = 0 0 0 0 0 1 0 0 0 0 0 0 0
gas = 50
";

/// The largest carryover: the value on the way, with the operating quantity joined, may pass the limit; the rest may not.
pub(crate) const CARRYOVER: &str = "open 1 2 1 0 = done
days 1 0 0 0 = done
close = done
state 1 100000000 = done
settle 1 0 = done
page 1 = 0 0 0 91666667 8333333 1 0 0 0 0 0 0 0
days 1 0 0 0 = done
close = done
state 1 17424243 = done
settle 1 0 = refused 10 1 1
state 1 -1 = done
settle 1 0 = done
page 1 = 8333333 0 0 100000000 9090909 1 0 0 0 0 0 0 0
gas = 117424242
";

/// Offers and their acceptance, between a monthly account and a self-balancing core group.
pub(crate) const TRADING: &str = "open 0 1 1 0 = done
open 1 2 2 1200 = done
open 2 1 1 0 = done
offer 0 1 1 1 100000001 = refused 8 1 0
days 0 0 1000 1000 = done
days 1 0 1000 1000 = done
days 2 0 1000 1000 = done
close = done
bill 0 = 1 2026 2 5 28000 5000 -14000
offer 64 1 1 1 5 = refused 1 1 255
offer 0 0 1 1 5 = refused 1 1 255
offer 0 3 1 1 5 = refused 1 1 255
offer 0 1 64 1 5 = refused 1 1 255
offer 0 1 1 0 5 = refused 1 1 255
offer 0 1 1 3 5 = refused 1 1 255
offer 4 1 1 1 0 = refused 1 1 255
offer 4 2 5 1 5 = refused 2 1 4
offer 0 2 4 1 5 = refused 2 1 4
offer 0 1 0 1 5 = refused 4 1 0
offer 0 2 1 1 5 = refused 4 1 0
offer 1 1 0 2 5 = refused 4 1 0
settle 2 0 = done
offer 1 1 2 2 5 = refused 4 1 2
offer 0 1 2 1 100000001 = refused 8 1 2
offer 2 1 0 1 5 = refused 8 1 2
offer 0 1 1 1 100000001 = refused 10 1 0
offer 0 1 1 1 100000000 = place 0
offer 1 2 0 1 7 = place 1
offer 0 1 1 2 1 = place 2
accept 64 0 = refused 1 1 255
accept 1 128 = refused 1 1 255
accept 4 127 = refused 2 1 4
accept 1 127 = refused 5 1 1
accept 1 3 = refused 5 1 1
accept 1 1 = refused 5 1 1
accept 0 0 = refused 5 1 0
accept 2 0 = refused 5 1 2
accept 1 0 = done
trade 0 = 2026 2 0 1 1 1 100000000
accept 1 0 = refused 5 1 1
offer 0 1 1 1 1 = place 3
accept 1 3 = refused 10 1 1
accept 1 2 = refused 10 1 0
accept 0 1 = done
trade 1 = 2026 2 1 2 0 1 7
accept 1 2 = done
trade 2 = 2026 2 0 1 1 2 1
trades 3 = written
offer 1 1 0 1 5 = place 4
page 0 = 0 -99999994 0 0 0 0 0 0 0 0 0 28000 0
page 1 = 0 100000000 -6 0 0 0 0 0 1200 0 0 28000 1200
settle 1 0 = done
bill 1 = 1 2026 2 2 99999988 1 -10000
page 1 = 0 0 0 -6 12 1 0 0 1200 0 0 0 0
offer 1 1 0 1 5 = refused 8 1 1
offer 0 1 1 1 1 = refused 8 1 1
accept 1 3 = refused 8 1 1
accept 0 4 = refused 8 1 1
settle 0 0 = done
accept 0 4 = refused 8 1 0
bill 2 = 0 2026 2 1 -1400 4000000 560000
bill 3 = 0 2026 2 2 -99997194 1500000000 14999579100000
days 0 0 1000 1000 = done
days 1 0 1000 1000 = done
days 2 0 1000 1000 = done
close = done
accept 1 3 = refused 5 1 1
offer 0 1 1 1 1 = place 0
";

/// 128 offers fit between two closings.
pub(crate) const PLACES: &str = "open 0 1 1 0 = done
open 1 1 1 0 = done
days 0 0 0 0 = done
days 1 0 0 0 = done
close = done
lay 128 = done
offer 0 1 1 1 100000001 = refused 10 1 0
offer 0 1 1 1 1 = refused 11 1 255
accept 1 127 = done
offer 0 1 1 1 1 = refused 11 1 255
settle 0 0 = done
settle 1 0 = done
days 0 0 0 0 = done
days 1 0 0 0 = done
close = done
offer 0 1 1 1 1 = place 0
";

/// Folding, and what a folded account can no longer do.
pub(crate) const FOLDING: &str = "open 0 1 1 100 = done
open 1 1 1 200 = done
open 2 1 2 0 = done
open 3 2 1 0 = done
fold 64 9 = refused 1 1 255
fold 9 64 = refused 1 1 255
fold 9 8 = refused 2 1 9
fold 3 9 = refused 2 1 9
fold 3 0 = refused 4 1 3
fold 0 3 = refused 4 1 3
fold 0 2 = refused 4 1 0
fold 0 0 = refused 4 1 0
adjust 0 70 = done
adjust 1 -20 = done
post 0 1 0 5 5 = done
fold 0 2 = refused 4 1 0
fold 0 1 = refused 7 1 0
fold 1 0 = refused 7 1 0
days 0 0 5 5 = done
days 1 0 5 6 = done
days 2 0 0 0 = done
days 3 0 0 0 = done
close = done
settle 0 0 = done
bill 0 = 0 2026 2 1 7 1255000 -879
bill 1 = 0 2026 2 2 56 1 0
page 0 = 0 0 0 0 7 1 0 0 100 0 0 0 0
fold 0 1 = done
page 1 = 0 -48 0 0 7 0 0 0 300 0 0 168 200
page 0 = refused 2 1 0
open 0 1 1 0 = refused 3 1 0
set 0 5 = refused 2 1 0
post 0 1 0 0 0 = refused 2 1 0
adjust 0 5 = refused 2 1 0
state 0 5 = refused 2 1 0
offer 0 1 1 1 5 = refused 2 1 0
offer 1 1 0 1 5 = refused 2 1 0
accept 0 0 = refused 2 1 0
fold 0 1 = refused 2 1 0
fold 1 0 = refused 2 1 0
settle 0 0 = refused 2 1 0
open 5 1 1 100000000 = done
fold 5 1 = refused 10 1 1
set 5 99999700 = done
fold 5 1 = done
page 1 = 0 -48 0 0 7 0 0 0 100000000 0 0 168 200
offer 1 1 2 1 3 = place 0
open 6 1 1 0 = done
adjust 6 -100000000 = done
adjust 1 -1 = done
fold 1 6 = refused 10 1 6
adjust 1 1 = done
adjust 6 100000000 = done
adjust 6 99999993 = done
adjust 1 8 = done
fold 1 6 = refused 10 1 6
adjust 1 -1 = done
fold 1 6 = done
page 6 = 100000000 -48 0 0 7 0 0 0 100000000 0 0 168 200
accept 2 0 = refused 2 1 1
gas = 99999959
";

/// The largest quantities: 31 days of 3,000,000, and 31 days at an accumulated imbalance of 100,000,000, whose sum of excesses just reaches its limit.
pub(crate) const LARGEST: &str = "open 0 1 2 0 = done
open 1 1 2 0 = done
open 2 1 2 0 = done
days 0 0 3000000 0 = done
page 0 = 93000000 0 0 0 0 1 31 0 0 93000000 1488000000 0 0
adjust 1 100000000 = done
days 1 0 0 0 = done
page 1 = 100000000 0 0 0 0 1 31 0 0 0 3100000000 0 0
adjust 2 -100000000 = done
days 2 0 3000000 3000000 = done
page 2 = -100000000 0 0 0 0 1 31 93000000 0 0 3100000000 0 0
close = done
bills 5 = written
bill 0 = 0 2026 1 3 93000000 1000000 9300000000
bill 1 = 0 2026 1 4 1488000000 1000000 148800000000
bill 2 = 1 2026 1 4 3100000000 1000000 310000000000
bill 3 = 2 2026 1 4 3100000000 1000000 310000000000
bill 4 = 2 2026 1 5 93000000 5000 -46500000
settle 1 0 = done
bill 5 = 1 2026 1 2 100000000 1 -10000
settle 2 0 = done
bill 6 = 2 2026 1 2 -100000000 1500000000 15000000000000
page 2 = 0 0 0 0 0 1 0 0 0 0 0 0 0
gas = 93000000
";

/// With two places for bill lines and one for trades.
pub(crate) const SHORT: &str = "open 0 1 1 0 = done
open 1 2 2 0 = done
days 0 0 1000 1000 = done
days 1 0 1000 999 = done
close = done
bills 2 = written
bill 0 = 1 2026 2 4 406 1000000 40600
bill 1 = 1 2026 2 5 27972 5000 -13986
offer 1 1 0 1 1 = place 0
offer 1 1 0 1 1 = place 1
accept 0 0 = done
accept 0 1 = refused 12 3 255
trades 1 = written
settle 1 0 = refused 12 3 255
settle 0 0 = done
page 1 = 0 27 0 0 0 0 0 0 0 0 0 27972 0
gas = 28
";

/// With one place for bill lines and none for trades.
pub(crate) const SHORTER: &str = "open 0 1 1 0 = done
open 1 2 2 0 = done
days 0 0 1000 1000 = done
days 1 0 1000 999 = done
close = refused 12 3 255
bills 0 = written
month = 2026 2
page 1 = 28 0 0 0 0 1 28 27972 0 0 406 0 0
";
