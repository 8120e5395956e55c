// The text of a day: read into lent tables and written back.
#![tactic(auto)]

mod items;
pub mod kinds;
pub mod lines;
pub mod loading;
pub mod naming;
pub mod opening;
mod orders;
mod pages;
mod putting;
pub mod sections;
mod sequencing;
#[cfg(test)]
mod tests;
pub mod writing;
#[cfg(test)]
mod written_tests;
