// Results and marks as tables that can be emptied.
ghost use Rattle.clearing.specs.Results.{no_result};
ghost use Rattle.clearing.specs.declared.marks.Mark.TheVariants.{Kept};

use crate::marks::Mark;
use crate::results::HourResult;
use book::blanks::Blank;
use curves::sides::Side;

impl Blank for HourResult {
    ghost blank = { no_result };

    fn blank() -> HourResult {
        HourResult {
            price: 0,
            executed: 0,
            surplus: 0,
            side: Side::Sell,
        }
    }
}

impl Blank for Mark {
    ghost blank = { Kept };

    fn blank() -> Mark {
        Mark::Kept
    }
}
