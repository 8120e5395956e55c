// Text: items, tokens and lines, read from an input, and printed on a page or written into a lent output, by one description of a format.
#![tactic(auto)]

pub mod close;
pub mod digits;
pub mod items;
pub mod page;
pub mod reader;
pub mod scan;
#[cfg(test)]
mod tests;
pub mod words;
pub mod write;
