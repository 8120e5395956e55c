// The ranges of the numbers of a post order.
ghost use Rattle.std.specs.Prelude.{◌≡◌};
ghost use Rattle.posting.specs.Posts.{bad_post, post_verdict};

use book::ranges::{bad_hour, bad_member};
use calls::posts::PostOrder;
use faults::fault::{Fault, Refusal};

fn bad_post(order: &PostOrder) -> bool
    ensures { result ≡ bad_post order.now }
{
    bad_member(order.member) || bad_hour(order.hour) || !(1..=100_000).contains(&order.volume)
}

// The first refusal of the order's own numbers.
pub fn judge_post(order: &PostOrder) -> Result<(), Fault>
    ensures { result ≡ post_verdict order.now }
{
    if bad_post(order) {
        return Err(Refusal::OutOfRange(0).without_text());
    }
    Ok(())
}
