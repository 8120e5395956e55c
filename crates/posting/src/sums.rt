// What post orders took from an hour.
ghost use Rattle.std.specs.Prelude.{◌≡◌, ◌≤◌, ◌==◌, length, sum_by, filter};
ghost use Rattle.posting.specs.declared.fills.Fill.{Fill};

use crate::fills::Fill;

// The volume of the fills of an hour, counted from 1.
pub(crate) fn sum_in(fills: &[Fill], hour: u8) -> u64
    requires { length fills.now ≤ 128 }
    ensures { result ≡ sum_by (λ (f : Fill). f.volume) (filter (λ (f : Fill). f.hour == hour) fills.now) }
{
    fills
        .iter()
        .filter(|fill| fill.hour == hour)
        .map(|fill| u64::from(fill.volume))
        .sum()
}
