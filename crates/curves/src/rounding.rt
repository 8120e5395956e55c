// How a straight-line value becomes whole tenths.
ghost use Rattle.std.specs.Prelude.{◌≡◌};
ghost use Rattle.curves.specs.Lines.{nudge};

// What is added to n before n / d is cut: nothing, so that the value is rounded down.
#[tactic(auto, unfolding(crate::specs::Lines::nudge))]
pub fn rounding(_d: u64) -> u64
    ensures { result ≡ nudge _d }
{
    0
}
