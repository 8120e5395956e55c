// The share rule, written once for every kind of claim.
ghost use Rattle.std.specs.Prelude.{◌≡◌, ◌-◌, length, MatchResult, ◌==◌};
ghost use Rattle.allocation.specs.Shares.{ahead, share_of, Shared, length_answer};

use crate::claim::Claim;
use faults::fault::{Fault, Refusal};

// What a volume leaves for a claim, after all claims that go before it.
pub fn left_for<C: Claim>(volume: u64, claims: &[C], claim: &C) -> u64
    ensures { result ≡ volume - ahead C.asks C.before claims.now claim.now }
{
    claims.iter().fold(volume, |left, other| {
        if other.goes_before(claim) {
            left.saturating_sub(other.asked())
        } else {
            left
        }
    })
}

// What one claim receives out of a volume.
pub fn share<C: Claim>(volume: u64, claims: &[C], claim: &C) -> u64
    ensures { result ≡ share_of C.asks C.before volume claims.now claim.now }
{
    claim.asked().min(left_for(volume, claims, claim))
}

// Claims with a place for the share of each.
pub(crate) struct Lot<'a, C> {
    pub(crate) claims: &'a [C],
    pub(crate) shares: &'a mut [u64],
    ghost even: { length shares.now ≡ length claims.now },
}

impl<'a, C: Claim> Lot<'a, C> {
    // Writes each claim's share.
    pub(crate) fn serve(self, volume: u64)
        ensures { Shared C.asks C.stamp C.before volume self.entry.claims.now self.exit.1.0.now }
    {
        let Lot { claims, shares } = self;
        // With `zip` over `iter_mut` nothing would be known of what the loop has written.
        for (i, claim) in claims.iter().enumerate() {
            shares[i] = share(volume, claims, claim);
        }
    }
}

// Refuses a table that has not one place for each claim.
pub(crate) fn check_length<C>(claims: &[C], shares: &[u64]) -> Result<(), Fault>
    ensures { result ≡ length_answer (length shares.now == length claims.now) }
{
    if shares.len() == claims.len() {
        Ok(())
    } else {
        Err(Refusal::WrongLength.without_text())
    }
}

// Shares a volume out, a place of `shares` to each claim. Each claim is compared with every other, so the cost is the
// square of their number: 65,536 comparisons at the 256 claims of a full table, and no step for a tick.
pub fn share_out<C: Claim>(volume: u64, claims: &[C], shares: &mut [u64]) -> Result<(), Fault>
    ensures answer { result ≡ length_answer (length shares.old == length claims.now) }
    ensures outcome { MatchResult result (λ _. Shared C.asks C.stamp C.before volume claims.now shares.new) (λ _. shares.new ≡ shares.old) }
{
    check_length(claims, shares)?;
    Lot { claims, shares }.serve(volume);
    Ok(())
}
