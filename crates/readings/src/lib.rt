// What can be read of a cleared day: results, marks, block prices and shares, over lent tables.
#![tactic(auto)]

pub mod block_prices;
pub mod results;
pub mod shares;
