// The price of a block of the day.
ghost use Rattle.std.specs.Prelude.{◌≡◌};
ghost use Rattle.book.specs.Views.{sets_of};
ghost use Rattle.readings.specs.Readings.{block_price_in};

use book::blocks::Blocks;
use clearing::block_prices::block_price;
use clearing::results::HourResult;
use faults::fault::{Fault, Refusal};

// The price of a block, counted from 1, at the results of the day's hours.
#[tactic(auto, using(crate::proofs::Priced::proper_set))]
pub fn block_price_in(hours: &[HourResult], blocks: &Blocks, block: usize) -> Result<u32, Fault>
    ensures { result ≡ block_price_in hours.now (sets_of blocks.now) block }
{
    if hours.len() != 24 {
        return Err(Refusal::WrongLength.without_text());
    }
    if !(1..=14).contains(&block) {
        return Err(Refusal::OutOfRange(0).without_text());
    }
    let set = blocks
        .get(block - 1)
        .ok_or(Refusal::NoSuchBlock.without_text())?;
    block_price(set, hours)
}
