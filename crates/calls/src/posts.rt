// An order of post-trading.
use curves::sides::Side;

// A part order takes what there is; a whole order all of its volume or nothing.
#[derive(Clone, Copy, PartialEq, Eq, Debug)]
pub enum Portion {
    Part,
    Whole,
}

// The order as a caller hands it in: any numbers.
#[derive(Clone, Copy)]
pub struct PostOrder {
    pub member: u32,
    pub hour: u8,
    pub side: Side,
    pub volume: u32,
    pub portion: Portion,
}
