// The order book: orders as asked, the order table, and one side of an hour as a curve.
#![tactic(auto)]

pub mod admit;
pub mod blanks;
pub mod blocks;
pub mod drafts;
pub mod entering;
pub mod entries;
pub mod hour_sets;
pub mod hours;
pub mod lents;
pub mod ranges;
pub mod rows;
pub mod sides;
pub mod tables;
#[cfg(test)]
mod tests;
pub mod tickets;
