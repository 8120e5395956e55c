// What a chain shows at a tick.
ghost use Rattle.std.specs.Prelude.{◌≡◌, ℕ, ◌<◌, ◌≤◌, find, nat_le, reverse, take, unwrap_or};
ghost use Rattle.std.specs.Option.{option_map_or};
ghost use Rattle.curves.specs.Steps.{last_below, first_above, step_shows};
ghost use Rattle.curves.specs.Lines.{inside, straight, rounded, line_shows};
ghost use Rattle.curves.specs.Views.{point, points};

use crate::chains::Chain;
use crate::pairs::Pair;
use crate::rounding::rounding;
use crate::sides::Side;

impl Chain {
    // What a step order of its pairs shows.
    pub(crate) fn step_at(&self, tick: u32) -> u64
        ensures { result ≡ step_shows self.now.side (points (take self.now.count self.now.pairs)) tick }
    {
        match self.side {
            Side::Buy => volume_of(first_above(self.pairs(), tick)),
            Side::Sell => volume_of(last_below(self.pairs(), tick)),
        }
    }

    // What a linear order of its pairs shows.
    pub(crate) fn line_at(&self, tick: u32) -> u64
        ensures { result ≡ line_shows self.now.side (points (take self.now.count self.now.pairs)) tick }
    {
        inside(self.pairs(), tick).unwrap_or(self.step_at(tick))
    }
}

fn volume_of(found: Option<Pair>) -> u64
    ensures { result ≡ option_map_or (λ p. p.volume) found 0 }
{
    found.map_or(0, |p| u64::from(p.volume))
}

fn last_below(pairs: &[Pair], tick: u32) -> Option<Pair>
    ensures { result ≡ find (λ p. nat_le p.tick tick) (reverse pairs.now) }
{
    pairs.iter().rev().copied().find(|p| p.tick <= tick)
}

fn first_above(pairs: &[Pair], tick: u32) -> Option<Pair>
    ensures { result ≡ find (λ p. nat_le tick p.tick) pairs.now }
{
    pairs.iter().copied().find(|p| tick <= p.tick)
}

// The straight-line value where the tick lies strictly between two neighbouring pairs.
fn inside(pairs: &[Pair], tick: u32) -> Option<u64>
    ensures { (v : ℕ) → unwrap_or result v ≡ inside (points pairs.now) tick v }
{
    // A loop: `between` needs the test, which a closure after `find` would not know.
    for w in pairs.windows(2) {
        let (p, q) = (w[0], w[1]);
        if p.tick < tick && tick < q.tick {
            return Some(between(p, q, tick));
        }
    }
    None
}

// The straight-line value at a tick between two pairs.
fn between(p: Pair, q: Pair, tick: u32) -> u64
    requires { (p.tick < tick) × (tick < q.tick) }
    ensures { result ≡ straight (point p) (point q) tick }
{
    let falling = u64::from(p.volume) * u64::from(q.tick - tick);
    let rising = u64::from(q.volume) * u64::from(tick - p.tick);
    round(falling + rising, u64::from(q.tick - p.tick))
}

// The quotient in whole tenths.
#[tactic(auto, using(crate::specs::Tenths::nudge_small), unfolding(crate::specs::Lines::rounded))]
fn round(n: u64, d: u64) -> u64
    requires { (0 < d) × ((d ≤ 300000) × (n ≤ 60000000000)) }
    ensures { result ≡ rounded n d }
{
    (n + rounding(d)) / d
}
