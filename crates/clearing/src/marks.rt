// What the rounds leave of a block order.
#[derive(Clone, Copy, PartialEq, Eq, Debug)]
pub enum Cause {
    Loss,
    Shortage,
}

// Whether a block was dropped: in which round, and why.
// No option: an operator reads these two words, and a block that stands lacks nothing.
#[derive(Clone, Copy, PartialEq, Eq, Debug)]
pub enum Mark {
    Kept,
    Dropped(u32, Cause),
}
