// One side of an hour in the order table, as a curve.
ghost use Rattle.std.specs.Prelude.{◌≡◌, ℕ, ◌≤◌, length, IfOk};
ghost use Rattle.faults.specs.Answers.{viewed};
ghost use Rattle.curves.specs.Steps.{open_end};
ghost use Rattle.book.specs.Short.{Short};
ghost use Rattle.book.specs.Shown.{place_shows, book_shows, lent_answer};
ghost use Rattle.book.specs.Views.{place_of, places};
ghost use Rattle.book.specs.Booked.{book_turned, book_few};
ghost use Rattle.std.proofs.Common.{arith};
ghost use Rattle.curves.specs.Offered.{open_bounded};

use crate::lents::Lent;
use crate::rows::Row;
use curves::curves::Curve;
use curves::sides::Side;
use curves::ticks::Tick;
use faults::fault::Fault;

// What lends the rows of a table.
pub trait Rows {
    ghost listed: { Self → Short };

    fn rows(&self) -> &[Row]
        ensures { result.now ≡ (listed self.now).rows };
}

// The rows of a lent table, at most 256, as one side of an hour reads them.
#[derive(Clone, Copy)]
pub struct TableSide<'a> {
    rows: &'a [Row],
    pub hour: u8,
    pub side: Side,
    ghost few: { length rows.now ≤ 256 },
}

impl<'a> TableSide<'a> {
    // Refused where there are more than 256 rows.
    pub fn new(rows: &'a [Row], hour: u8, side: Side) -> Result<TableSide<'a>, Fault>
        ensures lends { viewed (λ s. s.rows.now) result ≡ lent_answer rows.now }
        ensures asks { IfOk result (λ s. (s.hour ≡ hour) × (s.side ≡ side)) }
    {
        let Lent { rows } = Lent::new(rows)?;
        Ok(TableSide { rows, hour, side })
    }

    // Over anything that lends rows, and so is never refused.
    pub fn over<T: Rows>(table: &'a T, hour: u8, side: Side) -> TableSide<'a>
        ensures lends { result.rows.now ≡ (T.Rows.listed table.now).rows }
        ensures asks { (result.hour ≡ hour) × (result.side ≡ side) }
    {
        TableSide {
            rows: table.rows(),
            hour,
            side,
        }
    }
}

// What a row adds to one side of an hour.
#[tactic(auto, using(curves::specs::Offered::offer_few))]
fn row_at(row: &Row, hour: u8, side: Side, tick: Tick) -> u64
    ensures is { result ≡ place_shows hour side (place_of row.now) tick.value }
    ensures few { result ≤ 100000 }
{
    match row {
        Some(entry) if entry.product == u32::from(hour) && entry.order.side() == side => {
            entry.order.volume_at(tick)
        }
        _ => 0,
    }
}

impl<'a> Curve for TableSide<'a> {
    ghost faces = { λ s. s.side };

    ghost shows = { λ s. book_shows s.hour s.side (places s.rows.now) };

    ghost most = { λ s. book_shows s.hour s.side (places s.rows.now) (open_end s.side) };

    ghost turned = { λ s. book_turned s.hour s.side s.rows.now };

    ghost bounded = { λ s.
        let rows = s.rows.now in
        open_bounded s.side (book_shows s.hour s.side (places rows)) (book_turned s.hour s.side rows)
        (omega (arith, s.few, book_few s.hour s.side rows (open_end s.side))) };

    fn side(&self) -> Side {
        self.side
    }

    #[tactic(auto, using(crate::specs::Booked::book_sum))]
    fn volume_at(&self, tick: Tick) -> u64 {
        self.rows
            .iter()
            .map(|row| row_at(row, self.hour, self.side, tick))
            .sum()
    }

    fn greatest(&self) -> u64 {
        self.volume_at(self.side.open_end())
    }
}
