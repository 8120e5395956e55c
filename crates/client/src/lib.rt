// A caller of the phases: a whole day, from an order to the end of post-trading.
#![tactic(auto)]

pub mod days;
pub mod reports;
