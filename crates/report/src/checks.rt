// The prices of the hours that a report is given.
ghost use Rattle.std.specs.Prelude.{◌≡◌};
ghost use Rattle.std.specs.List.{list_any};
ghost use Rattle.curves.specs.Ranges.{bad_tick};
ghost use Rattle.clearing.specs.declared.results.HourResult.{HourResult};
ghost use Rattle.report.specs.Final.{prices_refused};

use clearing::results::HourResult;
use curves::ticks::Tick;
use faults::fault::{Fault, Refusal};

fn any_off_ladder(hours: &[HourResult]) -> bool
    ensures { result ≡ list_any (λ (h : HourResult). bad_tick h.price) hours.now }
{
    hours.iter().any(|hour| Tick::new(hour.price).is_err())
}

#[tactic(auto, using(crate::proofs::Checked::refused_by_any))]
pub(crate) fn check_prices(hours: &[HourResult]) -> Result<(), Fault>
    ensures { result ≡ prices_refused hours.now }
{
    if any_off_ladder(hours) {
        return Err(Refusal::OutOfRange(0).without_text());
    }
    Ok(())
}
