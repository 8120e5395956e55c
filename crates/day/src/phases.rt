// The phases of a day.
#[derive(Clone, Copy, PartialEq, Eq, Debug)]
pub enum Phase {
    Open,
    Fixed,
    Post,
    Final,
}
