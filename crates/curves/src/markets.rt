// A market order: one volume at every tick.
ghost use Rattle.std.specs.Prelude.{◌≤◌};
ghost use Rattle.std.proofs.Common.{rules};

use crate::curves::Curve;
use crate::sides::Side;
use crate::ticks::Tick;

#[derive(Clone, Copy, PartialEq, Eq, Debug)]
pub struct Market {
    pub side: Side,
    pub volume: u32,
    ghost some: { 1 ≤ volume },
    ghost few: { volume ≤ 100000 },
}

impl Curve for Market {
    ghost faces = { λ m. m.side };

    ghost shows = { λ m t. m.volume };

    ghost most = { λ m. m.volume };

    ghost turned = { Prim.search rules };

    ghost bounded = { Prim.search rules };

    fn side(&self) -> Side {
        self.side
    }

    fn volume_at(&self, _tick: Tick) -> u64 {
        self.greatest()
    }

    fn greatest(&self) -> u64 {
        u64::from(self.volume)
    }
}
