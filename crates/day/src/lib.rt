// A day that owns its tables, with its phase as a field, and the eight calls.
#![tactic(auto)]

pub mod calling;
pub mod days;
pub mod entering;
pub mod judging;
pub mod loading;
pub mod phases;
pub mod reading;
pub mod tables;
