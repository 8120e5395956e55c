// The hours of a day, and sets of them, hour 1 being the lowest binary digit.
ghost use Rattle.std.specs.Prelude.{◌≡◌, ◌+◌, ◌*◌, ◌<◌, ◌≤◌, cond, length, Ok, Err};
ghost use Rattle.faults.specs.Answers.{viewed, out_of_range};
ghost use Rattle.book.specs.Shown.{bad_hour};
ghost use Rattle.clearing.specs.Hours.{day_hours, in_hour, hour_count, price_sum};

use crate::results::HourResult;
use book::ranges::bad_hour;
use faults::fault::{Fault, Refusal};

// An hour of the day, counted from 0.
#[derive(Clone, Copy)]
pub(crate) struct Hour {
    pub(crate) index: usize,
    ghost within: { index < 24 },
}

impl Hour {
    // By its number, counted from 1. Refused where the day has no such hour.
    pub(crate) fn numbered(number: u8) -> Result<Hour, Fault>
        ensures { viewed (λ h. h.index + 1) result ≡ cond (bad_hour number) (Err out_of_range) (Ok number) }
    {
        if bad_hour(number) {
            return Err(Refusal::OutOfRange(0).without_text());
        }
        Ok(Hour {
            index: usize::from(number - 1),
        })
    }

    pub(crate) fn number(self) -> u8
        ensures { result ≡ self.index + 1 }
    {
        self.index as u8 + 1
    }

    pub(crate) fn is_in(self, hours: u32) -> bool
        ensures { result ≡ in_hour hours self.index }
    {
        (hours >> self.index) % 2 == 1
    }
}

// Two loops and no chains: a closure over the hours would not know that its hour is one of the day.
pub(crate) fn hour_count(hours: u32) -> u32
    ensures is { result ≡ hour_count hours }
    ensures few { result ≤ day_hours }
{
    let mut count = 0;
    for index in 0..24 {
        if (Hour { index }).is_in(hours) {
            count += 1;
        }
    }
    count
}

// The sum of the prices of a set of hours, each counted once.
pub(crate) fn price_sum(hours: u32, results: &[HourResult]) -> u64
    requires { length results.now ≡ day_hours }
    ensures is { result ≡ price_sum hours results.now }
    ensures few { result ≤ hour_count hours * 4294967295 }
{
    let mut sum = 0;
    for (index, result) in results.iter().enumerate() {
        if (Hour { index }).is_in(hours) {
            sum += u64::from(result.price);
        }
    }
    sum
}
