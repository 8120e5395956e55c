// What every curve answers, and the laws that it keeps.
ghost use Rattle.std.specs.Prelude.{◌≡◌, ℕ};
ghost use Rattle.curves.specs.Tables.{Turned, Greatest};
ghost use Rattle.curves.specs.declared.sides.Side.{Side};

use crate::sides::Side;
use crate::ticks::Tick;

// A curve has one side and shows one volume at every tick: that side and that table are its meaning.
pub trait Curve {
    ghost faces: { Self → Side };

    ghost shows: { Self → ℕ → ℕ };

    ghost most: { Self → ℕ };

    fn side(&self) -> Side
        ensures { result ≡ faces self.now };

    fn volume_at(&self, tick: Tick) -> u64
        ensures { result ≡ shows self.now tick.value };

    fn greatest(&self) -> u64
        ensures { result ≡ most self.now };

    ghost turned: { (x : Self) → Turned (faces x) (shows x) };

    ghost bounded: { (x : Self) → Greatest (shows x) (most x) };
}
