// Kinds of claims served one after another out of one volume.
ghost use Rattle.std.specs.Prelude.{◌≡◌, ◌-◌, ◌&&◌, length, sum_by, MatchResult, ◌==◌};
ghost use Rattle.allocation.specs.Joint.{kind_of};
ghost use Rattle.allocation.specs.Kinds.{KindsShared};
ghost use Rattle.allocation.specs.Shares.{length_answer};

use crate::claim::Claim;
use crate::shares::{Lot, check_length};
use faults::fault::Fault;

// What a volume leaves after all claims of a kind.
fn left_after<C: Claim>(volume: u64, claims: &[C]) -> u64
    ensures { result ≡ volume - sum_by C.asks claims.now }
{
    claims
        .iter()
        .fold(volume, |left, claim| left.saturating_sub(claim.asked()))
}

// Shares a volume out among three kinds of claims, each kind before the next, a place of its table to each claim. All
// lengths are tested before anything is written. The cost is that of sharing out within each kind. The rule is one over
// slices of claims, so each kind comes as a slice, with a lent table beside it.
pub fn share_kinds<F: Claim, S: Claim, T: Claim>(
    volume: u64,
    first: &[F],
    second: &[S],
    third: &[T],
    to_first: &mut [u64],
    to_second: &mut [u64],
    to_third: &mut [u64],
) -> Result<(), Fault>
    ensures answer { result ≡ length_answer ((length to_first.old) == (length first.now) && ((length to_second.old) == (length second.now) && (length to_third.old) == (length third.now))) }
    ensures outcome { MatchResult result (λ _. KindsShared (kind_of F.Claim.asks F.Claim.stamp F.Claim.before) (kind_of S.Claim.asks S.Claim.stamp S.Claim.before) (kind_of T.Claim.asks T.Claim.stamp T.Claim.before) volume first.now second.now third.now to_first.new to_second.new to_third.new) (λ _. (to_first.new ≡ to_first.old) × (to_second.new ≡ to_second.old) × (to_third.new ≡ to_third.old)) }
{
    check_length(first, to_first)?;
    check_length(second, to_second)?;
    check_length(third, to_third)?;
    let after_first = left_after(volume, first);
    let after_second = left_after(after_first, second);
    Lot {
        claims: first,
        shares: to_first,
    }
    .serve(volume);
    Lot {
        claims: second,
        shares: to_second,
    }
    .serve(after_first);
    Lot {
        claims: third,
        shares: to_third,
    }
    .serve(after_second);
    Ok(())
}
