// The block orders among the rows of the order table.
ghost use Rattle.std.specs.Prelude.{◌≡◌, true, length};
ghost use Rattle.curves.specs.Orders.{offer_of};
ghost use Rattle.curves.specs.Views.{points};
ghost use Rattle.book.specs.Views.{place_of, places, sets_of};
ghost use Rattle.clearing.specs.Blocks.{single_terms, block_terms, block_of, blocks_of, small_blocks};

use crate::blocks::Block;
use book::blocks::Blocks;
use book::rows::Row;
use curves::curves::Curve;
use curves::orders::Order;
use curves::pairs::Pair;

// The volume and the limit of one pair.
fn single_terms(pairs: &[Pair]) -> Option<(u32, Option<u32>)>
    ensures { result ≡ single_terms (points pairs.now) }
{
    let [pair] = pairs else {
        return None;
    };
    Some((pair.volume, Some(pair.tick)))
}

// The volume and the limit of a block order.
fn block_terms(order: &Order) -> Option<(u32, Option<u32>)>
    ensures { result ≡ block_terms (offer_of order.now).form }
{
    match order {
        Order::Market(market) => Some((market.volume, None)),
        Order::Step(step) => single_terms(step.chain.pairs()),
        Order::Linear(_) => None,
    }
}

fn block_of(row: &Row, products: &Blocks) -> Option<Block>
    ensures { result ≡ block_of (sets_of products.now) (place_of row.now) }
{
    let entry = (*row)?;
    let hours = products.get((entry.product as usize).checked_sub(25)?)?;
    let (volume, limit) = block_terms(&entry.order)?;
    Some(Block {
        side: entry.order.side(),
        hours,
        volume,
        limit,
        stamp: entry.stamp,
    })
}

// Writes each row's block order, if it holds one, at its place. The blocks are written where their table lies: one that is
// handed up by value is copied on its way.
pub(crate) fn collect(rows: &[Row], products: &Blocks, blocks: &mut [Option<Block>; 256])
    requires { length rows.now ≡ 256 }
    ensures is { blocks.new ≡ blocks_of (sets_of products.now) (places rows.now) }
    ensures small { small_blocks blocks.new ≡ true }
{
    for (i, block) in blocks.iter_mut().enumerate() {
        *block = block_of(&rows[i], products);
    }
}
