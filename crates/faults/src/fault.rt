// The part of the product that refuses.
#[derive(Clone, Copy, PartialEq, Eq, Debug)]
pub enum Layer {
    Text,
    Order,
    Day,
}

// Each refusal, with its place where it has one: a byte offset, a pair from 1, a row or an hour.
#[derive(Clone, Copy, PartialEq, Eq, Debug)]
pub enum Refusal {
    Misfit(usize),
    OutOfRange(usize),
    TickNotAbove(usize),
    VolumeTurned(usize),
    NoSuchBlock,
    BlockForm,
    WrongLength,
    WrongPhase,
    RowTaken(usize),
    RowEmpty(usize),
    OtherMember(usize),
    BlocksFull(usize),
    StampsSpent,
    PostsFull(usize),
    NothingLeft(usize),
    WholeTooLarge(usize),
}

// A refusal and the byte offset of its line, which is 0 without text.
#[derive(Clone, Copy, PartialEq, Eq, Debug)]
pub struct Fault {
    pub refusal: Refusal,
    pub line: usize,
}
