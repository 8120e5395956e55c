// A place of the post list: what a post order received.
use curves::sides::Side;

#[derive(Clone, Copy, PartialEq, Eq, Debug)]
pub struct Fill {
    pub member: u32,
    pub hour: u8,
    pub side: Side,
    pub volume: u32,
}
