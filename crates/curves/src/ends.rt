// The end of the ladder at which a side shows most.
ghost use Rattle.std.specs.Prelude.{◌≡◌};
ghost use Rattle.curves.specs.Steps.{open_end};

use crate::sides::Side;
use crate::ticks::Tick;

impl Side {
    pub fn open_end(self) -> Tick
        ensures { result.value ≡ open_end self }
    {
        match self {
            Side::Buy => Tick::FIRST,
            Side::Sell => Tick::LAST,
        }
    }
}
