// An order of any form as a curve.
ghost use Rattle.std.specs.Prelude.{◌≡◌};
ghost use Rattle.curves.specs.Offers.{offer_shows};
ghost use Rattle.curves.specs.Orders.{offer_of};
ghost use Rattle.curves.specs.Steps.{open_end};
ghost use Rattle.curves.specs.Price.{answer};
ghost use Rattle.curves.specs.Offered.{offer_turned, offer_few, open_bounded};
ghost use Rattle.std.proofs.Common.{arith};

use crate::curves::Curve;
use crate::orders::Order;
use crate::prices::price;
use crate::sides::Side;
use crate::ticks::Tick;
use faults::fault::Fault;

impl Curve for Order {
    ghost faces = { λ o. (offer_of o).side };

    ghost shows = { λ o t. offer_shows (offer_of o) t };

    ghost most = { λ o. offer_shows (offer_of o) (open_end (offer_of o).side) };

    ghost turned = { λ x. offer_turned x };

    ghost bounded = { λ x. open_bounded (offer_of x).side (offer_shows (offer_of x)) (offer_turned x) (omega (arith, offer_few x (open_end (offer_of x).side))) };

    fn side(&self) -> Side {
        match self {
            Order::Market(m) => m.side(),
            Order::Step(s) => s.side(),
            Order::Linear(l) => l.side(),
        }
    }

    fn volume_at(&self, tick: Tick) -> u64 {
        match self {
            Order::Market(m) => m.volume_at(tick),
            Order::Step(s) => s.volume_at(tick),
            Order::Linear(l) => l.volume_at(tick),
        }
    }

    fn greatest(&self) -> u64 {
        match self {
            Order::Market(m) => m.greatest(),
            Order::Step(s) => s.greatest(),
            Order::Linear(l) => l.greatest(),
        }
    }
}

// The price of an hour in which one order meets another.
pub fn price_of_two(buy: &Order, sell: &Order, reference: u32) -> Result<(u32, u64, u64), Fault>
    ensures { result ≡ answer (offer_of buy.now).side (offer_shows (offer_of buy.now)) (offer_of sell.now).side (offer_shows (offer_of sell.now)) reference }
{
    price(buy, sell, reference)
}
