// The working of an index card.

/// A point's low and high, each the sum of five doubles, and its smallest and largest double, in ten-thousandths of a dollar.
#[derive(Clone, Copy)]
pub struct Point {
    pub low: u64,
    pub high: u64,
    pub smallest: u32,
    pub largest: u32,
}

/// What a clerk checks by hand: both points, the weighted figures, and Citygate's highest price in whole dollars.
#[derive(Clone, Copy)]
pub struct Working {
    pub malin: Point,
    pub topock: Point,
    pub weighted_low: u64,
    pub weighted_high: u64,
    pub citygate_high: u32,
    pub citygate_dollars: u32,
}
