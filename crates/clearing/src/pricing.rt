// Each hour priced over its orders, with the standing blocks added to their sides.
ghost use Rattle.std.specs.Prelude.{◌≡◌, ◌<◌, ◌≤◌, length, None, slice_index, slice_index_or};
ghost use Rattle.curves.specs.declared.sides.Side.TheVariants.{Buy};
ghost use Rattle.book.specs.Shown.{book_shows};
ghost use Rattle.book.specs.Views.{places};
ghost use Rattle.clearing.specs.Clearing.{ticks, surplus_side, result_of, results_of, has_hour};

use crate::days::Day;
use crate::failing::Field;
use crate::hours::Hour;
use crate::results::HourResult;
use crate::rounds::Pricer;
use book::hours::price_hour;
use book::sides::TableSide;
use curves::curves::Curve;
use curves::sides::Side;
use curves::ticks::Tick;

// The reference value of an hour.
fn reference_at(references: &[Tick; 24], hour: Hour) -> u32
    ensures is { result ≡ slice_index (ticks references.now) hour.index }
    ensures low { 1 ≤ result }
    ensures high { result ≤ 300000 }
{
    references[hour.index].get()
}

// The side with the surplus, from what is bought and executed at the price.
fn surplus_side(bought: u64, executed: u64) -> Side
    ensures { result ≡ surplus_side bought executed }
{
    if bought > executed {
        Side::Buy
    } else {
        Side::Sell
    }
}

impl<'r, 'b, 't> Day<'r, 'b, 't> {
    // What the orders of an hour, counted from 1, buy at a price.
    fn buys_at(&self, hour: u8, price: u32) -> u64
        requires low { 1 ≤ price }
        requires high { price ≤ 300000 }
        ensures is { result ≡ book_shows hour Buy (places self.now.rows.now) price }
        ensures few { result ≤ 25600000 }
    {
        let buying = TableSide::new(self.rows, hour, Side::Buy).unwrap();
        let tick = Tick::new(price).unwrap();
        buying.volume_at(tick)
    }

    // The result of an hour while these blocks stand. The price call is never refused: a side's orders ask for 25,600,000 at
    // most, and so do its blocks.
    fn hour(&self, standing: &[bool], hour: Hour) -> HourResult
        requires { length standing.now ≡ length self.now.blocks.now }
        ensures { result ≡ result_of (places self.now.rows.now) self.now.blocks.now (ticks self.now.references.now) standing.now hour.index }
    {
        let field = Field {
            blocks: self.blocks,
            standing,
        };
        let bought = field.load(Side::Buy, hour);
        let sold = field.load(Side::Sell, hour);
        let number = hour.number();
        let reference = reference_at(self.references, hour);
        let (price, executed, surplus) = price_hour(
            self.rows, number, bought, sold, reference,
        ).unwrap();
        HourResult {
            price,
            executed,
            surplus,
            side: surplus_side(self.buys_at(number, price) + bought, executed),
        }
    }

    // Whether a place has a block with this hour.
    fn touches(&self, place: usize, hour: Hour) -> bool
        requires { place < length self.now.blocks.now }
        ensures { result ≡ has_hour hour.index (slice_index_or self.now.blocks.now place None) }
    {
        self.blocks[place].is_some_and(|block| hour.is_in(block.hours))
    }
}

impl<'r, 'b, 't> Pricer for Day<'r, 'b, 't> {
    ghost priced = { λ s fs. results_of (places s.rows.now) s.blocks.now (ticks s.references.now) fs };

    ghost known = { λ s. length s.blocks.now };

    fn price(&self, standing: &[bool], results: &mut [HourResult]) {
        for (index, result) in results.iter_mut().enumerate() {
            *result = self.hour(standing, Hour { index });
        }
    }

    // An hour without the dropped block keeps its result.
    fn reprice(&self, standing: &[bool], dropped: usize, results: &mut [HourResult]) {
        for (index, result) in results.iter_mut().enumerate() {
            let hour = Hour { index };
            if self.touches(dropped, hour) {
                *result = self.hour(standing, hour);
            }
        }
    }
}
