// The calls of a day, with any arguments.
#![tactic(auto)]

pub mod calls;
pub mod posts;
