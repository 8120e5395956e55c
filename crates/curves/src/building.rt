// From pairs as asked to a chain, or the first refusal.
ghost use Rattle.std.specs.Prelude.{◌≡◌, ◌≤◌, cond, length, take, Ok, Err};
ghost use Rattle.faults.specs.Answers.{viewed, granting, out_of_range};
ghost use Rattle.curves.specs.Ranges.{bad_volume, bad_count};
ghost use Rattle.curves.specs.Sequences.{turns, pair_asked, wild, paired, pairs_verdict};
ghost use Rattle.curves.specs.Views.{point, points, quoted, quotes};
ghost use Rattle.curves.specs.Chained.{listed, chained};

use crate::chains::Chain;
use crate::pairs::Pair;
use crate::quotes::Quote;
use crate::sides::Side;
use faults::fault::{Fault, Refusal};

fn bad_count(count: usize) -> bool
    ensures { result ≡ bad_count count }
{
    !(1..=8).contains(&count)
}

pub(crate) fn bad_volume(volume: u32) -> bool
    ensures { result ≡ bad_volume volume }
{
    !(1..=100_000).contains(&volume)
}

// Refused where a number is out of its range.
impl TryFrom<Quote> for Pair {
    type Error = Fault;

    ghost try_from_gives = { λ q r. viewed point r ≡ pair_asked (quoted q) };

    fn try_from(q: Quote) -> Result<Pair, Fault> {
        if !(1..=300_000).contains(&q.tick) || bad_volume(q.volume) {
            return Err(Refusal::OutOfRange(0).without_text());
        }
        Ok(Pair {
            tick: q.tick,
            volume: q.volume,
        })
    }
}

// The pairs at the front of an array, which the first of them fills up.
fn in_range(asked: &[Quote]) -> Result<[Pair; 8], Fault>
    requires some { 1 ≤ length asked.now }
    requires fits { length asked.now ≤ 8 }
    ensures { viewed (λ ps. points (take (length asked.now) ps)) result ≡ cond (wild (quotes asked.now)) (Err out_of_range) (Ok (quotes asked.now)) }
{
    let mut pairs = [Pair::try_from(asked[0])?; 8];
    // By index: after a `zip` with `iter_mut` nothing would be known of what the loop has written.
    for (i, q) in asked.iter().enumerate() {
        pairs[i] = Pair::try_from(*q)?;
    }
    Ok(pairs)
}

impl Side {
    // Whether the next volume stays with its side.
    fn stays(self, before: u32, next: u32) -> bool
        ensures { result ≡ turns self before next }
    {
        match self {
            Side::Buy => next <= before,
            Side::Sell => before <= next,
        }
    }
}

// Pair by pair: first the tick, then the volume.
fn pair_by_pair(side: Side, pairs: &[Pair]) -> Result<(), Fault>
    requires { length pairs.now ≤ 8 }
    ensures { result ≡ paired side 2 (points pairs.now) }
{
    for (i, w) in pairs.windows(2).enumerate() {
        let (p, q) = (w[0], w[1]);
        if q.tick <= p.tick {
            return Err(Refusal::TickNotAbove(i + 2).without_text());
        }
        if !side.stays(p.volume, q.volume) {
            return Err(Refusal::VolumeTurned(i + 2).without_text());
        }
    }
    Ok(())
}

impl Chain {
    // All numbers first, then pair by pair.
    pub fn new(side: Side, asked: &[Quote]) -> Result<Chain, Fault>
        ensures { viewed listed result ≡ granting (pairs_verdict side (quotes asked.now)) (chained side (quotes asked.now)) }
    {
        let count = asked.len();
        if bad_count(count) {
            return Err(Refusal::OutOfRange(0).without_text());
        }
        let pairs = in_range(asked)?;
        pair_by_pair(side, &pairs[..count])?;
        Ok(Chain { side, pairs, count })
    }
}
