// The text of a day's calls: a count, and then a line for each call.
#![tactic(auto)]

pub mod lines;
pub mod names;
pub mod naming;
pub mod scripts;
#[cfg(test)]
mod tests;
