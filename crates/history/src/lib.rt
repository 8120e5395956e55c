// Whole runs of a day: a load and any list of calls, and what holds after every one of them.
#![tactic(auto)]

pub mod running;
