// The area of an order: what it shows at all ticks beyond a price.
#![tactic(auto)]

pub mod areas;
mod chains;
mod pieces;
mod runs;
mod slopes;
mod stretches;
#[cfg(test)]
mod tests;
