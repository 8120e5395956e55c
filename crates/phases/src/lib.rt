// The phases of a day as types, with its tables lent at each call.
#![tactic(auto)]

pub mod loading;
pub mod orders;
pub mod posts;
pub mod prices;
pub mod reading;
pub mod states;
pub mod writing;
