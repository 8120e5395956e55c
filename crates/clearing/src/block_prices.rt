// The price of a block.
ghost use Rattle.std.specs.Prelude.{◌≡◌, ◌*◌, ◌≤◌, length};
ghost use Rattle.clearing.specs.Hours.{day_hours};
ghost use Rattle.clearing.specs.BlockPrice.{mean_up, block_price, block_price_answer};

use crate::hours::{hour_count, price_sum};
use crate::results::HourResult;
use faults::fault::{Fault, Refusal};

// The mean of `count` prices, half a cent upward.
fn mean(sum: u64, count: u64) -> u64
    requires some { 1 ≤ count }
    requires few { count ≤ day_hours }
    requires fits { sum ≤ count * 4294967295 }
    ensures { result ≡ mean_up sum count }
{
    (2 * sum + count) / (2 * count)
}

fn mean_price(hours: u32, results: &[HourResult]) -> u32
    requires some { 1 ≤ hours }
    requires few { hours ≤ 16777215 }
    requires whole { length results.now ≡ day_hours }
    ensures { result ≡ block_price hours results.now }
{
    let count = hour_count(hours);
    let sum = price_sum(hours, results);
    mean(sum, u64::from(count)) as u32
}

// The price of a block with this set of hours, at the results of the day's hours.
pub fn block_price(hours: u32, results: &[HourResult]) -> Result<u32, Fault>
    ensures { result ≡ block_price_answer hours results.now }
{
    if results.len() != 24 {
        return Err(Refusal::WrongLength.without_text());
    }
    if !(1..=16_777_215).contains(&hours) {
        return Err(Refusal::OutOfRange(0).without_text());
    }
    Ok(mean_price(hours, results))
}
