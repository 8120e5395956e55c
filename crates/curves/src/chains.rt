// One to eight pairs in the order that their side asks for.
ghost use Rattle.std.specs.Prelude.{◌≡◌, ◌≤◌, true, take};
ghost use Rattle.curves.specs.Sequences.{ordered};
ghost use Rattle.curves.specs.Views.{points};

use crate::pairs::Pair;
use crate::sides::Side;

// The first `count` of the pairs count; the rest fill the array, so that an order is a plain value and is copied (the
// library's `ArrayVec` is not), and equal orders need not be equal values.
#[derive(Clone, Copy, Debug)]
pub struct Chain {
    pub side: Side,
    pub pairs: [Pair; 8],
    pub count: usize,
    ghost some: { 1 ≤ count },
    ghost fits: { count ≤ 8 },
    ghost lined: { ordered side (points (take count pairs)) ≡ true },
}

impl Chain {
    // The pairs that count.
    pub fn pairs(&self) -> &[Pair]
        ensures { result.now ≡ take self.now.count self.now.pairs }
    {
        &self.pairs[..self.count]
    }
}
