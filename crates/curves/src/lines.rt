// A linear order: straight lines between its pairs. A kind of its own beside the step order, with a table of its own.
ghost use Rattle.std.specs.Prelude.{take};
ghost use Rattle.curves.specs.Lines.{line_shows};
ghost use Rattle.curves.specs.Steps.{open_end};
ghost use Rattle.curves.specs.Views.{points};
ghost use Rattle.curves.specs.Lined.{line_turned, line_bounded};
ghost use Rattle.curves.specs.Stepped.{small_points};

use crate::chains::Chain;
use crate::curves::Curve;
use crate::sides::Side;
use crate::ticks::Tick;

#[derive(Clone, Copy, Debug)]
pub struct Linear {
    pub chain: Chain,
}

impl Curve for Linear {
    ghost faces = { λ o. o.chain.side };

    ghost shows = { λ o t. line_shows o.chain.side (points (take o.chain.count o.chain.pairs)) t };

    ghost most = { λ o. line_shows o.chain.side (points (take o.chain.count o.chain.pairs)) (open_end o.chain.side) };

    ghost turned = { λ x. line_turned x.chain.side (points (take x.chain.count x.chain.pairs)) x.chain.lined };

    ghost bounded = { λ x.
        let ps = take x.chain.count x.chain.pairs in
        line_bounded x.chain.side (points ps) (small_points ps) x.chain.lined };

    fn side(&self) -> Side {
        self.chain.side
    }

    fn volume_at(&self, tick: Tick) -> u64 {
        self.chain.line_at(tick.get())
    }

    fn greatest(&self) -> u64 {
        self.volume_at(self.chain.side.open_end())
    }
}
