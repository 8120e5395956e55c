// A load: any curve with a fixed volume added at every tick.
ghost use Rattle.std.specs.Prelude.{◌≡◌, ℕ, ◌+◌, ◌<◌, ◌≤◌, MatchResult, IfOk};
ghost use Rattle.curves.specs.Loads.{capped, loaded_answer};
ghost use Rattle.faults.specs.Answers.{out_of_range};
ghost use Rattle.std.proofs.Common.{rules};

use crate::curves::Curve;
use crate::prices::price;
use crate::sides::Side;
use crate::ticks::Tick;
use faults::fault::{Fault, Refusal};

// The sum never passes the greatest volume that a curve may show; `new` refuses where it would.
#[derive(Drop)]
pub struct Load<C: Curve> {
    curve: C,
    volume: u64,
    ghost few: { volume ≤ 100000000 },
}

impl<C: Curve + Drop> Load<C> {
    // Refused where the greatest volume would pass 100,000,000.
    pub fn new(curve: C, volume: u64) -> Result<Load<C>, Fault>
        ensures made { MatchResult result (λ l. (l.curve ≡ curve) × (l.volume ≡ volume) × (C.Curve.most curve + volume ≤ 100000000)) (λ e. (e ≡ out_of_range) × (100000000 < C.Curve.most curve + volume)) }
        ensures sum { IfOk result (λ l. (t : ℕ) → 1 ≤ t → t ≤ 300000 → capped l.volume (C.Curve.shows l.curve t) ≡ C.Curve.shows curve t + volume) }
    {
        if volume > 100_000_000 || curve.greatest() + volume > 100_000_000 {
            return Err(Refusal::OutOfRange(0).without_text());
        }
        Ok(Load { curve, volume })
    }
}

impl<C: Curve> Curve for Load<C> {
    ghost faces = { λ l. C.Curve.faces l.curve };

    ghost shows = { λ l t. capped l.volume (C.Curve.shows l.curve t) };

    ghost most = { λ l. capped l.volume (C.Curve.most l.curve) };

    ghost turned = { Prim.search rules };

    ghost bounded = { Prim.search rules };

    fn side(&self) -> Side {
        self.curve.side()
    }

    fn volume_at(&self, tick: Tick) -> u64 {
        (self.curve.volume_at(tick) + self.volume).min(100_000_000)
    }

    fn greatest(&self) -> u64 {
        (self.curve.greatest() + self.volume).min(100_000_000)
    }
}

// The price of an hour with a fixed volume added to each of its two curves. Plain numbers, for each is refused by a rule of
// its own.
pub fn price_with_loads<B: Curve + Drop, S: Curve + Drop>(
    buy: B,
    bought: u64,
    sell: S,
    sold: u64,
    reference: u32,
) -> Result<(u32, u64, u64), Fault>
    ensures { result ≡ loaded_answer (B.Curve.faces buy) (B.Curve.shows buy) (B.Curve.most buy) bought (S.Curve.faces sell) (S.Curve.shows sell) (S.Curve.most sell) sold reference }
{
    let buying = Load::new(buy, bought)?;
    let selling = Load::new(sell, sold)?;
    price(&buying, &selling, reference)
}
