// Curves from tick to volume, and the clearing price of an hour over any two of them.
#![tactic(auto)]

pub mod building;
pub mod chains;
pub mod curves;
pub mod ends;
pub mod lines;
pub mod loads;
pub mod making;
pub mod markets;
pub mod offers;
pub mod orders;
pub mod pairs;
pub mod prices;
pub mod quotes;
pub mod rounding;
pub mod sides;
pub mod steps;
#[cfg(test)]
mod tests;
pub mod theorems;
pub mod ticks;
mod walks;
