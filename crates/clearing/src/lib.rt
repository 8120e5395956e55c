// Clearing: the block rounds, the published results of the hours, and the shares of an hour.
#![tactic(auto)]

pub mod block_prices;
mod blocks;
mod claims;
mod collecting;
mod days;
pub mod emptying;
mod failing;
pub mod fixing;
mod hours;
pub mod marks;
mod pricing;
pub mod results;
mod rounds;
pub mod sharing;
#[cfg(test)]
mod tests;
pub mod theorems;
