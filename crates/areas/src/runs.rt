// How an order runs from one of its pairs to the next.
ghost use Rattle.std.specs.Prelude.{◌≡◌, ◌≤◌};
ghost use Rattle.areas.specs.Runs.{Way, level, sloped, climbed};

use crate::slopes::{Line, line_sum};
use crate::stretches::Ticks;
use curves::lines::Linear;
use curves::steps::Step;

pub(crate) trait Run {
    ghost way: { Way };

    // What a piece shows above its lower volume, over so many ticks from the pair that has it.
    fn climb(line: Line, ticks: Ticks) -> u64
        ensures is { result ≡ climbed way line.width line.height ticks.count }
        ensures fits { result ≤ 27000090000000000 };
}

// A step order: the volume changes at the pairs alone.
impl Run for Step {
    ghost way = { level };

    fn climb(_line: Line, _ticks: Ticks) -> u64 {
        0
    }
}

// A linear order: a straight line.
impl Run for Linear {
    ghost way = { sloped };

    fn climb(line: Line, ticks: Ticks) -> u64 {
        line_sum(line, ticks)
    }
}
