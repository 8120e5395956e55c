// The clearing price of an hour: the turn of the excess, found by halving the ladder.
ghost use Rattle.std.specs.Prelude.{◌≡◌, ◌+◌, ◌<◌, ◌≤◌, ◌&&◌, ◌||◌, ◌==◌, nat_lt, IfOk};
ghost use Rattle.curves.specs.Ladder.{least_tick};
ghost use Rattle.curves.specs.Halving.{passes};
ghost use Rattle.curves.specs.Price.{prefer, better, price_of, executed, surplus, answer, Best};
ghost use Rattle.curves.specs.declared.sides.Side.TheVariants.{Buy, Sell};

use crate::curves::Curve;
use crate::sides::Side;
use crate::ticks::Tick;
use faults::fault::{Fault, Refusal};

// What a tick executes, and the surplus that it leaves.
#[derive(Clone, Copy)]
struct Traded {
    tick: Tick,
    executed: u64,
    surplus: u64,
}

impl Traded {
    // It executes more, or as much with less surplus.
    fn beats(self, other: Traded) -> bool
        ensures { result ≡ (nat_lt other.executed self.executed || (self.executed == other.executed && nat_lt self.surplus other.surplus)) }
    {
        self.executed > other.executed
            || self.executed == other.executed && self.surplus < other.surplus
    }
}

// Of two neighbouring ticks, the better one, and where neither is, the one nearer to the reference value.
fn preferred(high: Traded, low: Traded, reference: Tick) -> Tick
    ensures { result.value ≡ prefer high.executed high.surplus low.executed low.surplus high.tick.value low.tick.value reference.value }
{
    if high.beats(low) {
        high.tick
    } else if low.beats(high) || reference > high.tick {
        low.tick
    } else {
        high.tick
    }
}

// The two curves of an hour.
#[derive(Drop)]
struct Crossing<'a, B: Curve, S: Curve> {
    buy: &'a B,
    sell: &'a S,
    ghost buys: { B.Curve.faces buy.now ≡ Buy },
    ghost sells: { S.Curve.faces sell.now ≡ Sell },
}

impl<B: Curve, S: Curve> Crossing<'_, B, S> {
    // One flag and no closure: the definition takes it too, so that one search serves both ends.
    fn passed(&self, tick: Tick, strict: bool) -> bool
        ensures { result ≡ passes strict (B.Curve.shows self.now.buy.now) (S.Curve.shows self.now.sell.now) tick.value }
    {
        let b = self.buy.volume_at(tick);
        let s = self.sell.volume_at(tick);
        if strict { b < s } else { b <= s }
    }

    // The least tick whose excess is not positive (strict: is negative), 300,001 where there is none.
    // By hand: `partition_point` searches a slice, and the ladder is none.
    fn turn(&self, strict: bool) -> u32
        ensures low { 1 ≤ result }
        ensures high { result ≤ 300001 }
        ensures is { result ≡ least_tick (passes strict (B.Curve.shows self.now.buy.now) (S.Curve.shows self.now.sell.now)) }
    {
        let mut low: u32 = 1;
        let mut high: u32 = 300_001;
        while low < high {
            let mid = low + (high - low) / 2;
            if self.passed(Tick::at(mid), strict) {
                high = mid;
            } else {
                low = mid + 1;
            }
        }
        low
    }

    fn traded(&self, tick: Tick) -> Traded
        ensures at { result.tick ≡ tick }
        ensures executed { result.executed ≡ executed (B.Curve.shows self.now.buy.now) (S.Curve.shows self.now.sell.now) tick.value }
        ensures surplus { result.surplus ≡ surplus (B.Curve.shows self.now.buy.now) (S.Curve.shows self.now.sell.now) tick.value }
    {
        let b = self.buy.volume_at(tick);
        let s = self.sell.volume_at(tick);
        Traded {
            tick,
            executed: b.min(s),
            surplus: b.abs_diff(s),
        }
    }

    // The price by the three rules.
    fn tick(&self, reference: Tick) -> Tick
        ensures { result.value ≡ price_of (B.Curve.shows self.now.buy.now) (S.Curve.shows self.now.sell.now) reference.value }
    {
        let from = self.turn(false);
        let past = self.turn(true);
        if from < past {
            Tick::at(reference.get().clamp(from, past - 1))
        } else if from > 300_000 {
            Tick::LAST
        } else if from == 1 {
            Tick::FIRST
        } else {
            self.better(from - 1, reference)
        }
    }

    // Of the tick `high` and the next, the preferred one.
    #[tactic(auto, unfolding(crate::specs::Price::better))]
    fn better(&self, high: u32, reference: Tick) -> Tick
        requires { (1 ≤ high) × (high < 300000) }
        ensures { result.value ≡ better (B.Curve.shows self.now.buy.now) (S.Curve.shows self.now.sell.now) high (high + 1) reference.value }
    {
        preferred(
            self.traded(Tick::at(high)),
            self.traded(Tick::at(high + 1)),
            reference,
        )
    }
}

// Tick, executed volume and surplus of an hour, answered together: callers take the tuple apart.
pub fn price<B: Curve, S: Curve>(
    buy: &B,
    sell: &S,
    reference: u32,
) -> Result<(u32, u64, u64), Fault>
    ensures is { result ≡ answer (B.Curve.faces buy.now) (B.Curve.shows buy.now) (S.Curve.faces sell.now) (S.Curve.shows sell.now) reference }
    ensures best { IfOk result (λ x. Best (B.Curve.shows buy.now) (S.Curve.shows sell.now) x.0) }
{
    let near = Tick::new(reference)?;
    if buy.side() != Side::Buy || sell.side() != Side::Sell {
        return Err(Refusal::OutOfRange(0).without_text());
    }
    let hour = Crossing { buy, sell };
    let tick = hour.tick(near);
    let Traded {
        executed,
        surplus,
        ..
    } = hour.traded(tick);
    Ok((tick.get(), executed, surplus))
}
