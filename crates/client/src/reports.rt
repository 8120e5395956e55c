// What a caller reads of a day: a price while prices stand, and its text.
ghost use Rattle.std.specs.Prelude.{◌≡◌, length};
ghost use Rattle.faults.specs.Answers.{viewed};
ghost use Rattle.dayfile.specs.Written.{bytes_of, write_answer};
ghost use Rattle.readings.specs.Readings.{result_in};

use book::rows::Row;
use clearing::results::HourResult;
use faults::fault::Fault;
use phases::reading::Prices;
use phases::states::Final;
use phases::writing::Written;

// The price of an hour, counted from 1.
pub fn hour_price<D: Prices>(day: &D, hours: &[HourResult], hour: u8) -> Result<u32, Fault>
    ensures { result ≡ viewed (λ x. x.price) (result_in hours.now hour) }
{
    day.result(hours, hour).map(|published| published.price)
}

// The text of a day that is over.
pub fn closing_text(day: &Final, rows: &[Row], out: &mut [u8]) -> Result<usize, Fault>
    ensures { result ≡ write_answer (length rows.now) (bytes_of day.now.opening rows.now) out.old }
{
    day.write(rows, out)
}
