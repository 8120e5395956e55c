// What is printed of a day: the answers of its calls, and its final result.
#![tactic(auto)]

pub mod answers;
mod checks;
pub mod finals;
mod lines;
mod parts;
mod shares;
pub mod stops;
mod tables;
#[cfg(test)]
mod tests;
