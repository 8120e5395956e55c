// The program as a function from its input to its output.
#![tactic(auto)]

pub mod running;
