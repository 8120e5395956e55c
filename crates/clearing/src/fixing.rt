// Clearing a day: the block rounds over the order table.
ghost use Rattle.std.specs.Prelude.{◌≡◌, length, IfOk, if◌then◌else◌};
ghost use Rattle.book.specs.Views.{places, sets_of};
ghost use Rattle.clearing.specs.Hours.{day_hours};
ghost use Rattle.clearing.specs.Clearing.{ticks, clearing, clearing_of};
ghost use Rattle.clearing.specs.Fixing.{right_tables, fix_answer, BlocksCleared, HoursPriced};

use crate::collecting::collect;
use crate::days::Day;
use crate::marks::Mark;
use crate::results::HourResult;
use crate::rounds::settle;
use book::blocks::Blocks;
use book::rows::Row;
use curves::ticks::Tick;
use faults::fault::{Fault, Refusal};

fn clear(
    rows: &[Row],
    blocks: &Blocks,
    references: &[Tick; 24],
    hours: &mut [HourResult],
    marks: &mut [Mark],
) -> u32
    requires ordered { length rows.now ≡ 256 }
    requires whole { length hours.old ≡ day_hours }
    requires marked { length marks.old ≡ 256 }
    ensures is { clearing result hours.new marks.new ≡ clearing_of (places rows.now) (sets_of blocks.now) (ticks references.now) }
    ensures cleared { BlocksCleared (places rows.now) (sets_of blocks.now) (ticks references.now) result hours.new marks.new }
    ensures priced { HoursPriced (places rows.now) (sets_of blocks.now) (ticks references.now) result hours.new marks.new }
{
    let mut orders = [None; 256];
    collect(rows, blocks, &mut orders);
    let mut standing = [true; 256];
    let day = Day {
        rows,
        blocks: &orders,
        references,
    };
    settle(&day, &orders, &mut standing, marks, hours)
}

// Runs the rounds of a day and writes the results of its hours and the marks of its rows. Answers the number of rounds.
pub fn fix(
    rows: &[Row],
    blocks: &Blocks,
    references: &[Tick; 24],
    hours: &mut [HourResult],
    marks: &mut [Mark],
) -> Result<u32, Fault>
    ensures answer { result ≡ fix_answer (right_tables (length rows.now) (length hours.old) (length marks.old)) (clearing_of (places rows.now) (sets_of blocks.now) (ticks references.now)).rounds }
    ensures results { hours.new ≡ (if right_tables (length rows.now) (length hours.old) (length marks.old) then (clearing_of (places rows.now) (sets_of blocks.now) (ticks references.now)).results else hours.old) }
    ensures marked { marks.new ≡ (if right_tables (length rows.now) (length hours.old) (length marks.old) then (clearing_of (places rows.now) (sets_of blocks.now) (ticks references.now)).marks else marks.old) }
    ensures cleared { IfOk result (λ rounds. BlocksCleared (places rows.now) (sets_of blocks.now) (ticks references.now) rounds hours.new marks.new) }
    ensures priced { IfOk result (λ rounds. HoursPriced (places rows.now) (sets_of blocks.now) (ticks references.now) rounds hours.new marks.new) }
{
    if rows.len() != 256 || hours.len() != 24 || marks.len() != 256 {
        return Err(Refusal::WrongLength.without_text());
    }
    Ok(clear(rows, blocks, references, hours, marks))
}
