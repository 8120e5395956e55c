// The order table, row by row. The contracts speak of the plain places behind the rows.
ghost use Rattle.std.specs.Prelude.{◌≡◌};
ghost use Rattle.book.specs.Places.{place_at, taken, owned_by, holds_block, blocks_held, others};
ghost use Rattle.book.specs.Views.{place_of, places};

use crate::ranges::is_block;
use crate::rows::Row;

// A row of the table, empty beyond its end.
#[tactic(auto, using(crate::proofs::Placed::placed_at, crate::proofs::Placed::placed_past))]
fn row_of(rows: &[Row], row: usize) -> Row
    ensures { place_of result ≡ place_at (places rows.now) row }
{
    *rows.get(row)?
}

pub fn is_taken(rows: &[Row], row: usize) -> bool
    ensures { result ≡ taken (place_at (places rows.now) row) }
{
    row_of(rows, row).is_some()
}

pub fn is_of(rows: &[Row], row: usize, member: u32) -> bool
    ensures { result ≡ owned_by member (place_at (places rows.now) row) }
{
    row_of(rows, row).is_some_and(|entry| entry.member == member)
}

fn holds_block(row: &Row) -> bool
    ensures { result ≡ holds_block (place_of row.now) }
{
    row.is_some_and(|entry| is_block(entry.product))
}

#[tactic(auto, using(crate::proofs::Placed::blocks_count))]
fn count_blocks(rows: &[Row]) -> usize
    ensures { result ≡ blocks_held (places rows.now) }
{
    rows.iter().filter(|row| holds_block(row)).count()
}

// How many other rows hold blocks.
#[tactic(auto, using(crate::proofs::Placed::others_and_own))]
pub fn other_blocks(rows: &[Row], row: usize) -> usize
    ensures { result ≡ others row (places rows.now) }
{
    count_blocks(rows) - usize::from(holds_block(&row_of(rows, row)))
}
