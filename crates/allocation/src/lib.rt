// Claims on a volume, the rankings among them, and the one rule that shares the volume out.
#![tactic(auto)]

pub mod block;
pub mod claim;
pub mod kinds;
pub mod limit;
pub mod market;
pub mod place;
pub mod shares;
#[cfg(test)]
mod tests;
