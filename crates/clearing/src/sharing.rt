// The shares of an hour: on each side its volume goes to the standing blocks, then to market orders, then to limit orders.
ghost use Rattle.std.specs.Prelude.{◌≡◌, ◌+◌, ◌-◌, map, length, None, slice_index_or, MatchResult, OnOk};
ghost use Rattle.book.specs.Views.{places, sets_of};
ghost use Rattle.clearing.specs.declared.marks.Mark.TheVariants.{Kept};
ghost use Rattle.clearing.specs.Clearing.{tabled};
ghost use Rattle.clearing.specs.Claims.{is_kept, block_claim, market_of, limit_of};
ghost use Rattle.clearing.specs.Sharing.{shares_refused, shared_out, both_sides, served_in_turn, side_shares, hour_shares, HourShared};

use crate::blocks::Block;
use crate::claims::{block_claim, limit_claim, market_claim};
use crate::collecting::collect;
use crate::hours::Hour;
use crate::marks::Mark;
use crate::results::HourResult;
use allocation::block::BlockClaim;
use allocation::kinds::share_kinds;
use allocation::limit::LimitClaim;
use allocation::market::MarketClaim;
use book::blocks::Blocks;
use book::rows::Row;
use curves::sides::Side;
use curves::ticks::Tick;
use faults::fault::{Fault, Refusal};
use std::array;

// A row has a share of one kind at most, and on one side, so the larger of two shares is its own.
fn larger(xs: &[u64; 256], ys: &[u64; 256]) -> [u64; 256]
    ensures { result ≡ both_sides xs.now ys.now 256 }
{
    array::from_fn(|i| xs[i].max(ys[i]))
}

// Serves blocks, then market orders, then limit orders.
fn serve_kinds(
    volume: u64,
    blocks: &[Option<BlockClaim>; 256],
    markets: &[Option<MarketClaim>; 256],
    limits: &[Option<LimitClaim>; 256],
) -> [u64; 256]
    ensures { result ≡ served_in_turn volume blocks.now markets.now limits.now 256 }
{
    let mut to_blocks = [0; 256];
    let mut to_markets = [0; 256];
    let mut to_limits = [0; 256];
    share_kinds(
        volume,
        blocks,
        markets,
        limits,
        &mut to_blocks,
        &mut to_markets,
        &mut to_limits,
    )
    .unwrap();
    larger(&to_blocks, &larger(&to_markets, &to_limits))
}

// What is shared out on a side.
fn shared_out(res: &HourResult, filled: u64, side: Side) -> u64
    ensures { result ≡ shared_out res.now filled side }
{
    if side == res.side {
        res.executed.saturating_add(filled)
    } else {
        res.executed
    }
}

// What an hour is shared out by, at its price.
#[derive(Clone, Copy)]
struct Tables<'r, 'p, 'm> {
    rows: &'r [Row],
    products: &'p Blocks,
    marks: &'m [Mark],
    hour: Hour,
    price: Tick,
    ghost whole: { length rows.now ≡ 256 },
    ghost marked: { length marks.now ≡ 256 },
}

impl<'r, 'p, 'm> Tables<'r, 'p, 'm> {
    // The claims are written where their table lies: one that is handed up by value is copied on its way.
    fn block_claims(
        &self,
        blocks: &[Option<Block>; 256],
        side: Side,
        claims: &mut [Option<BlockClaim>; 256],
    )
        ensures { claims.new ≡ tabled (λ k. block_claim (is_kept (slice_index_or self.now.marks.now k Kept)) side self.now.hour.index (slice_index_or blocks.now k None)) 256 }
    {
        for (i, claim) in claims.iter_mut().enumerate() {
            *claim = block_claim(&blocks[i], self.marks[i], side, self.hour);
        }
    }

    fn market_claims(&self, side: Side, claims: &mut [Option<MarketClaim>; 256])
        ensures { claims.new ≡ map (market_of (self.now.hour.index + 1) side) (places self.now.rows.now) }
    {
        for (i, claim) in claims.iter_mut().enumerate() {
            *claim = market_claim(&self.rows[i], self.hour, side);
        }
    }

    fn limit_claims(&self, side: Side, claims: &mut [Option<LimitClaim>; 256])
        ensures { claims.new ≡ map (limit_of (self.now.hour.index + 1) side self.now.price.value) (places self.now.rows.now) }
    {
        for (i, claim) in claims.iter_mut().enumerate() {
            *claim = limit_claim(&self.rows[i], self.hour, side, self.price);
        }
    }

    // The shares of the rows on one side.
    fn shares(&self, side: Side, volume: u64) -> [u64; 256]
        ensures { result ≡ side_shares (places self.now.rows.now) (sets_of self.now.products.now) self.now.marks.now self.now.hour.index self.now.price.value side volume }
    {
        let mut placed = [None; 256];
        let mut blocks = [None; 256];
        let mut markets = [None; 256];
        let mut limits = [None; 256];
        collect(self.rows, self.products, &mut placed);
        self.block_claims(&placed, side, &mut blocks);
        self.market_claims(side, &mut markets);
        self.limit_claims(side, &mut limits);
        serve_kinds(volume, &blocks, &markets, &limits)
    }

    // The shares on both sides, in one table.
    fn both_shares(&self, res: &HourResult, filled: u64) -> [u64; 256]
        requires { self.now.price.value ≡ res.now.price }
        ensures is { result ≡ hour_shares (places self.now.rows.now) (sets_of self.now.products.now) self.now.marks.now self.now.hour.index res.now filled }
        ensures shared { HourShared (places self.now.rows.now) (sets_of self.now.products.now) self.now.marks.now self.now.hour.index res.now filled }
    {
        let bought = self.shares(Side::Buy, shared_out(res, filled, Side::Buy));
        let sold = self.shares(Side::Sell, shared_out(res, filled, Side::Sell));
        larger(&bought, &sold)
    }
}

// Writes each row's share of an hour, counted from 1, of which `filled` was sold or bought after the auction.
pub fn hour_shares(
    rows: &[Row],
    blocks: &Blocks,
    marks: &[Mark],
    hour: u8,
    res: &HourResult,
    filled: u64,
    shares: &mut [u64],
) -> Result<(), Fault>
    ensures answer { result ≡ shares_refused (length rows.now) (length marks.now) (length shares.old) hour res.now.price }
    ensures each { MatchResult result (λ _. shares.new ≡ hour_shares (places rows.now) (sets_of blocks.now) marks.now (hour - 1) res.now filled) (λ _. shares.new ≡ shares.old) }
    ensures shared { OnOk result (HourShared (places rows.now) (sets_of blocks.now) marks.now (hour - 1) res.now filled) }
{
    if rows.len() != 256 || marks.len() != 256 || shares.len() != 256 {
        return Err(Refusal::WrongLength.without_text());
    }
    let hour = Hour::numbered(hour)?;
    let price = Tick::new(res.price)?;
    let tables = Tables {
        rows,
        products: blocks,
        marks,
        hour,
        price,
    };
    shares.copy_from_slice(&tables.both_shares(res, filled));
    Ok(())
}
