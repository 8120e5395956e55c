// The area of an order with pairs: piece by piece, and what it shows beyond them.
ghost use Rattle.std.specs.Prelude.{◌≡◌, ◌≤◌};
ghost use Rattle.areas.specs.Area.{area_of};
ghost use Rattle.areas.specs.Runs.{run_shows};
ghost use Rattle.curves.specs.Chained.{chain_of};

use crate::pieces::{flat, pieces};
use crate::runs::Run;
use curves::chains::Chain;
use curves::sides::Side;
use curves::ticks::Tick;

// A buy shows nothing above its last pair, a sell nothing below its first.
pub(crate) fn chain_area<R: Run>(chain: &Chain, price: Tick) -> u64
    ensures is { result ≡ area_of chain.now.side (run_shows R.way chain.now.side (chain_of chain.now)) price.value }
    ensures fits { result ≤ 30000000000 }
{
    // By index: an order has at least one pair, so neither end is missing.
    let end = match chain.side {
        Side::Buy => chain.pairs[0],
        Side::Sell => chain.pairs[chain.count - 1],
    };
    pieces::<R>(chain.side, chain.pairs(), price) + flat(chain.side, end, price)
}
