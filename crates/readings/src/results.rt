// The result of an hour, and the mark of a row.
ghost use Rattle.std.specs.Prelude.{◌≡◌};
ghost use Rattle.readings.specs.Readings.{result_in, mark_in};

use book::ranges::bad_hour;
use clearing::marks::Mark;
use clearing::results::HourResult;
use faults::fault::{Fault, Refusal};

// The result of an hour, counted from 1.
pub fn result_in(hours: &[HourResult], hour: u8) -> Result<HourResult, Fault>
    ensures { result ≡ result_in hours.now hour }
{
    if hours.len() != 24 {
        return Err(Refusal::WrongLength.without_text());
    }
    if bad_hour(hour) {
        return Err(Refusal::OutOfRange(0).without_text());
    }
    Ok(hours[usize::from(hour) - 1])
}

// Whether the block order of a row stands, or when and why it was dropped.
pub fn mark_in(marks: &[Mark], row: usize) -> Result<Mark, Fault>
    ensures { result ≡ mark_in marks.now row }
{
    if marks.len() != 256 {
        return Err(Refusal::WrongLength.without_text());
    }
    marks
        .get(row)
        .copied()
        .ok_or(Refusal::OutOfRange(0).without_text())
}
