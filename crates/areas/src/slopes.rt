// The sum of the whole parts of a straight line.
ghost use Rattle.std.specs.Prelude.{◌≡◌, ℕ, ◌+◌, ◌-◌, ◌*◌, ◌<◌, ◌≤◌};
ghost use Rattle.areas.specs.Slope.{slope_sum, triangle};
ghost use Rattle.curves.specs.Lines.{nudge};

use crate::stretches::Ticks;
use curves::rounding::rounding;

// A line that climbs `height` over `width` ticks.
#[derive(Clone, Copy)]
pub(crate) struct Line {
    pub(crate) width: u32,
    pub(crate) height: u32,
    ghost some: { 1 ≤ width },
    ghost few: { width ≤ 300000 },
    ghost low: { height ≤ 100000 },
}

// 0 + 1 + .. + (n - 1)
#[tactic(auto, using(crate::proofs::Euclid::triangle_is))]
fn triangular(n: u64) -> u64
    requires { n ≤ 300000 }
    ensures { result ≡ triangle n }
{
    n * n.saturating_sub(1) / 2
}

// The sum of (a i + b) / m over i below n. What is left after the whole steps is counted along the other axis,
// as in Euclid's algorithm, so the number of turns is logarithmic in m and not the number of ticks.
fn slope_sum(n: u64, m: u64, a: u64, b: u64) -> u64
    requires some { 0 < m }
    requires m_few { m ≤ 300000 }
    requires n_few { n ≤ 300000 }
    requires a_few { a ≤ 300000 }
    requires b_few { b ≤ 300000 }
    ensures { result ≡ slope_sum n m a b }
{
    let whole = triangular(n) * (a / m) + n * (b / m);
    let slope = a % m;
    let top = slope * n + b % m;
    if top < m {
        whole
    } else {
        whole + slope_sum(top / m, slope, m, top % m)
    }
}

// The sum of the whole parts of a line over its first ticks, what the rounding adds included.
#[tactic(auto, using(crate::proofs::Euclid::slope_fits, curves::specs::Tenths::nudge_small))]
pub(crate) fn line_sum(line: Line, ticks: Ticks) -> u64
    ensures is { result ≡ slope_sum ticks.count line.width line.height (nudge line.width) }
    ensures fits { result ≤ 27000090000000000 }
{
    let (width, height) = (u64::from(line.width), u64::from(line.height));
    slope_sum(u64::from(ticks.count), width, height, rounding(width))
}
