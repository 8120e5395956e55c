// A step order: the volume of the nearest pair on its side of the tick.
ghost use Rattle.std.specs.Prelude.{take};
ghost use Rattle.curves.specs.Steps.{step_shows, open_end};
ghost use Rattle.curves.specs.Views.{points};
ghost use Rattle.curves.specs.Stepped.{step_turned, small_points, step_bounded};

use crate::chains::Chain;
use crate::curves::Curve;
use crate::sides::Side;
use crate::ticks::Tick;

#[derive(Clone, Copy, Debug)]
pub struct Step {
    pub chain: Chain,
}

impl Curve for Step {
    ghost faces = { λ o. o.chain.side };

    ghost shows = { λ o t. step_shows o.chain.side (points (take o.chain.count o.chain.pairs)) t };

    ghost most = { λ o. step_shows o.chain.side (points (take o.chain.count o.chain.pairs)) (open_end o.chain.side) };

    ghost turned = { λ x.
        let ps = take x.chain.count x.chain.pairs in
        step_turned x.chain.side (points ps) (small_points ps) x.chain.lined };

    ghost bounded = { λ x.
        let ps = take x.chain.count x.chain.pairs in
        step_bounded x.chain.side (points ps) (small_points ps) x.chain.lined };

    fn side(&self) -> Side {
        self.chain.side
    }

    fn volume_at(&self, tick: Tick) -> u64 {
        self.chain.step_at(tick.get())
    }

    fn greatest(&self) -> u64 {
        self.volume_at(self.chain.side.open_end())
    }
}
