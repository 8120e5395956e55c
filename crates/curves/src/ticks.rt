// A price on the ladder: a whole number of cents per MWh, from 1 to 300,000. No other tick exists.
ghost use Rattle.std.specs.Prelude.{◌≡◌, ◌≤◌};
ghost use Rattle.curves.specs.Ranges.{tick_asked};
ghost use Rattle.faults.specs.Answers.{viewed};

use faults::fault::{Fault, Refusal};

#[derive(Clone, Copy, PartialEq, Eq, PartialOrd, Ord, Debug)]
pub struct Tick {
    value: u32,
    ghost low: { 1 ≤ value },
    ghost high: { value ≤ 300000 },
}

impl Tick {
    pub const FIRST: Tick = Tick { value: 1 };

    pub const LAST: Tick = Tick { value: 300_000 };

    // Refused where the number is off the ladder. `new` and `get`, as a number that is not zero has them.
    pub fn new(value: u32) -> Result<Tick, Fault>
        ensures { viewed (λ t. t.value) result ≡ tick_asked value }
    {
        if !(1..=300_000).contains(&value) {
            return Err(Refusal::OutOfRange(0).without_text());
        }
        Ok(Tick { value })
    }

    pub(crate) fn at(value: u32) -> Tick
        requires { (1 ≤ value) × (value ≤ 300000) }
        ensures { result.value ≡ value }
    {
        Tick { value }
    }

    pub fn get(self) -> u32
        ensures { result ≡ self.value }
    {
        self.value
    }
}
