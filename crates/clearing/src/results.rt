// The published result of an hour.
use curves::sides::Side;

#[derive(Clone, Copy, PartialEq, Eq, Debug)]
pub struct HourResult {
    pub price: u32,
    pub executed: u64,
    pub surplus: u64,
    // The side with the surplus.
    pub side: Side,
}
