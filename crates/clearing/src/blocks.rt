// A block order, executed wholly or not at all, and its loss at a round's prices.
ghost use Rattle.std.specs.Prelude.{◌≡◌, length};
ghost use Rattle.clearing.specs.Hours.{day_hours};
ghost use Rattle.clearing.specs.Verdicts.{claim_of, loss};

use crate::hours::{hour_count, price_sum};
use crate::results::HourResult;
use allocation::block::BlockClaim;
use curves::sides::Side;

#[derive(Clone, Copy)]
pub(crate) struct Block {
    pub(crate) side: Side,
    // The set of its hours, as the number that the file and every definition have.
    pub(crate) hours: u32,
    pub(crate) volume: u32,
    // A market block has none.
    pub(crate) limit: Option<u32>,
    pub(crate) stamp: u32,
}

impl Block {
    // The sum of its hours' prices is past its limit times the number of its hours. No mean is taken, so nothing is rounded.
    pub(crate) fn loses(&self, results: &[HourResult]) -> bool
        requires { length results.now ≡ day_hours }
        ensures { result ≡ loss self.now results.now }
    {
        let Some(limit) = self.limit else {
            return false;
        };
        let total = price_sum(self.hours, results);
        // A cast, since the proof reads the limit's range from it.
        let stake = limit as u64 * u64::from(hour_count(self.hours));
        match self.side {
            Side::Buy => total > stake,
            Side::Sell => total < stake,
        }
    }

    // How it ranks among blocks.
    pub(crate) fn claim(&self) -> BlockClaim
        ensures { result ≡ claim_of self.now }
    {
        BlockClaim {
            hours: hour_count(self.hours),
            volume: u64::from(self.volume),
            stamp: self.stamp,
        }
    }
}
