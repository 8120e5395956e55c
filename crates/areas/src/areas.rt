// The area of an order: what it shows at all ticks above the price (buy) or below it (sell).
// It is at most 100,000 at each of 300,000 ticks, so 64 bits suffice.
ghost use Rattle.std.specs.Prelude.{◌≡◌, ◌≤◌};
ghost use Rattle.areas.specs.Area.{area_of, offer_area};
ghost use Rattle.curves.specs.Orders.{market_of, step_of, linear_of, offer_of};

use crate::chains::chain_area;
use crate::stretches::Ticks;
use curves::curves::Curve;
use curves::lines::Linear;
use curves::markets::Market;
use curves::orders::Order;
use curves::steps::Step;
use curves::ticks::Tick;

// A curve whose area is computed without walking the ticks.
pub trait Area: Curve {
    fn area(&self, price: Tick) -> u64
        ensures is { result ≡ area_of (Self.Curve.faces self.now) (Self.Curve.shows self.now) price.value }
        ensures fits { result ≤ 30000000000 };
}

impl Area for Market {
    fn area(&self, price: Tick) -> u64
        ensures is { result ≡ offer_area (market_of self.now) price.value }
        ensures fits { result ≤ 30000000000 }
    {
        Ticks::beyond(self.side, price).showing(self.volume)
    }
}

impl Area for Step {
    fn area(&self, price: Tick) -> u64
        ensures is { result ≡ offer_area (step_of self.now) price.value }
        ensures fits { result ≤ 30000000000 }
    {
        chain_area::<Step>(&self.chain, price)
    }
}

impl Area for Linear {
    fn area(&self, price: Tick) -> u64
        ensures is { result ≡ offer_area (linear_of self.now) price.value }
        ensures fits { result ≤ 30000000000 }
    {
        chain_area::<Linear>(&self.chain, price)
    }
}

impl Area for Order {
    fn area(&self, price: Tick) -> u64
        ensures is { result ≡ offer_area (offer_of self.now) price.value }
        ensures fits { result ≤ 30000000000 }
    {
        match self {
            Order::Market(m) => m.area(price),
            Order::Step(s) => s.area(price),
            Order::Linear(l) => l.area(price),
        }
    }
}
