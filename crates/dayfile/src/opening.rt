// What a day begins with, beside its order table.
use book::blocks::Blocks;
use curves::ticks::Tick;

// The reference value of each hour, the block products, and how many stamps are given.
#[derive(Clone, Copy)]
pub struct Opening {
    pub references: [Tick; 24],
    pub blocks: Blocks,
    pub given: u32,
}
