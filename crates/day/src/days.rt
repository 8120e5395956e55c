// A day that owns its tables, with its phase as a field.
use crate::phases::Phase;
use book::rows::Row;
use clearing::marks::Mark;
use clearing::results::HourResult;
use dayfile::opening::Opening;
use posting::fills::Fill;

// The first `posted` places of the post list count: it has 128 by the rules, and how many are used is part of a day.
#[derive(Drop)]
pub struct Day {
    pub(crate) phase: Phase,
    pub(crate) opening: Opening,
    pub(crate) rows: [Row; 256],
    pub(crate) hours: [HourResult; 24],
    pub(crate) marks: [Mark; 256],
    pub(crate) posts: [Fill; 128],
    pub(crate) posted: usize,
}
