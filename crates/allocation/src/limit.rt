// A limit order's claim: larger area, then larger volume at the price, then lower stamp.
ghost use Rattle.allocation.specs.Precedence.{limit_before};
ghost use Rattle.allocation.specs.Layers.{by_key, by_stamp};

use crate::claim::Claim;
use std::cmp::Reverse;

#[derive(Clone, Copy, PartialEq, Eq, Debug)]
pub struct LimitClaim {
    pub area: u64,
    pub volume: u64,
    pub stamp: u32,
}

impl Claim for LimitClaim {
    ghost asks = { λ a. a.volume };

    ghost stamp = { λ a. a.stamp };

    ghost before = { limit_before };

    ghost ranked = { by_key (λ a. a.area) (by_key (λ a. a.volume) (by_stamp (λ a. a.stamp))) };

    fn asked(&self) -> u64 {
        self.volume
    }

    fn goes_before(&self, other: &LimitClaim) -> bool {
        (self.area, self.volume, Reverse(self.stamp))
            > (other.area, other.volume, Reverse(other.stamp))
    }
}
