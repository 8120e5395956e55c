// Why a call was refused: the one fault of the whole product.
#![tactic(auto)]

pub mod display;
pub mod fault;
pub mod telling;
