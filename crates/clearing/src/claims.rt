// The claims of the rows on one side of an hour.
ghost use Rattle.std.specs.Prelude.{◌≡◌, ◌+◌};
ghost use Rattle.std.specs.Option.{option_copied};
ghost use Rattle.book.specs.Views.{place_of};
ghost use Rattle.clearing.specs.Claims.{is_kept, block_claim, entry_in, market_of, limit_of};

use crate::blocks::Block;
use crate::hours::Hour;
use crate::marks::Mark;
use allocation::block::BlockClaim;
use allocation::limit::LimitClaim;
use allocation::market::MarketClaim;
use areas::areas::Area;
use book::entries::Entry;
use book::rows::Row;
use curves::curves::Curve;
use curves::orders::Order;
use curves::sides::Side;
use curves::ticks::Tick;

// The claim of a standing block.
pub(crate) fn block_claim(
    place: &Option<Block>,
    mark: Mark,
    side: Side,
    hour: Hour,
) -> Option<BlockClaim>
    ensures { result ≡ block_claim (is_kept mark) side hour.index place.now }
{
    let block = (*place)?;
    let asks = matches!(mark, Mark::Kept) && side == block.side && hour.is_in(block.hours);
    asks.then_some(block.claim())
}

// The entry of a row, if it is one of this hour and side.
fn bid_in(row: &Row, hour: Hour, side: Side) -> Option<&Entry>
    ensures { option_copied result ≡ entry_in (hour.index + 1) side row.now }
{
    row.as_ref().filter(|entry| {
        entry.product == u32::from(hour.number()) && entry.order.side() == side
    })
}

// The claim of a market order.
pub(crate) fn market_claim(row: &Row, hour: Hour, side: Side) -> Option<MarketClaim>
    ensures { result ≡ market_of (hour.index + 1) side (place_of row.now) }
{
    let entry = bid_in(row, hour, side)?;
    match entry.order {
        Order::Market(market) => Some(MarketClaim {
            volume: u64::from(market.volume),
            stamp: entry.stamp,
        }),
        _ => None,
    }
}

// The claim of a step or linear order. Its area is computed here and nowhere else.
pub(crate) fn limit_claim(row: &Row, hour: Hour, side: Side, price: Tick) -> Option<LimitClaim>
    ensures { result ≡ limit_of (hour.index + 1) side price.value (place_of row.now) }
{
    let entry = bid_in(row, hour, side)?;
    match entry.order {
        Order::Market(_) => None,
        _ => Some(LimitClaim {
            area: entry.order.area(price),
            volume: entry.order.volume_at(price),
            stamp: entry.stamp,
        }),
    }
}
