// The price of an hour in the order table.
ghost use Rattle.std.specs.Prelude.{◌≡◌, length};
ghost use Rattle.book.specs.Shown.{hour_answer};
ghost use Rattle.book.specs.Views.{places};

use crate::ranges::bad_hour;
use crate::rows::Row;
use crate::sides::TableSide;
use curves::loads::price_with_loads;
use curves::sides::Side;
use faults::fault::{Fault, Refusal};

// Tick, executed volume and surplus of an hour, with a fixed volume added to each side.
pub fn price_hour(
    rows: &[Row],
    hour: u8,
    bought: u64,
    sold: u64,
    reference: u32,
) -> Result<(u32, u64, u64), Fault>
    ensures { result ≡ hour_answer (length rows.now) (places rows.now) hour bought sold reference }
{
    let buying = TableSide::new(rows, hour, Side::Buy)?;
    let selling = TableSide::new(rows, hour, Side::Sell)?;
    if bad_hour(hour) {
        return Err(Refusal::OutOfRange(0).without_text());
    }
    price_with_loads(buying, bought, selling, sold, reference)
}
