// A place of a table of claims: an empty one asks for nothing and goes after every claim.
ghost use Rattle.allocation.specs.Places.{place_number, place_before};
ghost use Rattle.allocation.specs.Layers.{by_place};

use crate::claim::Claim;

impl<C: Claim> Claim for Option<C> {
    ghost asks = { place_number C.Claim.asks };

    ghost stamp = { place_number C.Claim.stamp };

    ghost before = { place_before C.Claim.before };

    ghost ranked = { by_place C.Claim.ranked };

    fn asked(&self) -> u64 {
        self.as_ref().map_or(0, |claim| claim.asked())
    }

    fn goes_before(&self, other: &Option<C>) -> bool {
        match (self, other) {
            (None, _) => false,
            (Some(_), None) => true,
            (Some(mine), Some(theirs)) => mine.goes_before(theirs),
        }
    }
}
