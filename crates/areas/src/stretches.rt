// Ticks in a row that show the same volume.
ghost use Rattle.std.specs.Prelude.{◌≡◌, ◌*◌, ◌≤◌};
ghost use Rattle.areas.specs.Area.{ticks_beyond};

use curves::sides::Side;
use curves::ticks::Tick;

// How many ticks in a row: never more than the ladder has.
#[derive(Clone, Copy)]
pub(crate) struct Ticks {
    pub(crate) count: u32,
    ghost few: { count ≤ 300000 },
}

impl Ticks {
    // Those beyond the price.
    pub(crate) fn beyond(side: Side, price: Tick) -> Ticks
        ensures { result.count ≡ ticks_beyond side price.value }
    {
        let count = match side {
            Side::Buy => 300_000 - price.get(),
            Side::Sell => price.get() - 1,
        };
        Ticks { count }
    }

    // What they show together where each shows the volume.
    pub(crate) fn showing(self, volume: u32) -> u64
        requires { volume ≤ 100000 }
        ensures is { result ≡ volume * self.count }
        ensures fits { result ≤ 30000000000 }
    {
        u64::from(volume) * u64::from(self.count)
    }
}
