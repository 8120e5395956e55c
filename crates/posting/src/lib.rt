// Post-trading: orders that take what the auction left in an hour, first come first served.
#![tactic(auto)]

pub mod emptying;
pub mod fills;
pub mod posted;
pub mod posting;
pub mod ranges;
mod sums;
