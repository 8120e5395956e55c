// A market order's claim: larger volume, then lower stamp.
ghost use Rattle.allocation.specs.Precedence.{market_before};
ghost use Rattle.std.proofs.Common.{rules};

use crate::claim::Claim;

#[derive(Clone, Copy, PartialEq, Eq, Debug)]
pub struct MarketClaim {
    pub volume: u64,
    pub stamp: u32,
}

impl Claim for MarketClaim {
    ghost asks = { λ a. a.volume };

    ghost stamp = { λ a. a.stamp };

    ghost before = { market_before };

    ghost ranked = { Prim.search rules };

    fn asked(&self) -> u64 {
        self.volume
    }

    fn goes_before(&self, other: &MarketClaim) -> bool {
        // By hand: as a tuple of two parts it takes twice the instructions, and each claim is compared with every other.
        let larger = self.volume > other.volume;
        larger || self.volume == other.volume && self.stamp < other.stamp
    }
}
