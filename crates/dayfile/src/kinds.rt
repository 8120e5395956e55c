// The side and the form of an order as its line names them.
use curves::sides::Side;

// A type of this crate, for a trait of `text` can only be given to one.
#[derive(Clone, Copy)]
pub struct SideWord {
    pub side: Side,
}

#[derive(Clone, Copy, PartialEq, Eq, Debug)]
pub enum Kind {
    Market,
    Step,
    Linear,
}
