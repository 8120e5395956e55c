// A block order's claim: more hours, then larger volume, then lower stamp.
ghost use Rattle.allocation.specs.Precedence.{block_before};
ghost use Rattle.allocation.specs.Layers.{by_key, by_stamp};

use crate::claim::Claim;
use std::cmp::Reverse;

#[derive(Clone, Copy, PartialEq, Eq, Debug)]
pub struct BlockClaim {
    // How many hours the block has.
    pub hours: u32,
    pub volume: u64,
    pub stamp: u32,
}

impl Claim for BlockClaim {
    ghost asks = { λ a. a.volume };

    ghost stamp = { λ a. a.stamp };

    ghost before = { block_before };

    ghost ranked = { by_key (λ a. a.hours) (by_key (λ a. a.volume) (by_stamp (λ a. a.stamp))) };

    fn asked(&self) -> u64 {
        self.volume
    }

    fn goes_before(&self, other: &BlockClaim) -> bool {
        (self.hours, self.volume, Reverse(self.stamp))
            > (other.hours, other.volume, Reverse(other.stamp))
    }
}
