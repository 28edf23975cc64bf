// What a month's index card is made from.
use series::PriceSeries;

/// Five series of one month, two services each at Malin and Topock and one at Citygate; the supply amounts that weigh Malin
/// and Topock (Dth); the bid-week index and Citygate's monthly index (ten-thousandths of a dollar).
#[derive(Clone, Copy)]
pub struct Published {
    pub malin_a: PriceSeries,
    pub malin_b: PriceSeries,
    pub topock_a: PriceSeries,
    pub topock_b: PriceSeries,
    pub citygate: PriceSeries,
    pub malin_supply: u32,
    pub topock_supply: u32,
    pub bid_week: u32,
    pub citygate_index: u32,
}
