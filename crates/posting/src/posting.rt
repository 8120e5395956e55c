// The call that takes from an hour's surplus.
ghost use Rattle.std.specs.Prelude.{◌≡◌, ◌-◌, ◌<◌, ◌≤◌, false, length, OnOk};
ghost use Rattle.clearing.specs.Results.{result_at};
ghost use Rattle.posting.specs.Posts.{filled_answer, post_decided, post_answer, posts_after, bad_post};

use crate::fills::Fill;
use crate::posted::Posted;
use crate::ranges::judge_post;
use calls::posts::{Portion, PostOrder};
use clearing::results::HourResult;
use faults::fault::{Fault, Refusal};

// What the first `posted` places of a post list took from an hour, counted from 1.
pub fn filled_in(posts: &[Fill], posted: usize, hour: u8) -> Result<u64, Fault>
    ensures { result ≡ filled_answer posts.now posted hour }
{
    Ok(Posted::new(posts, posted)?.filled_in(hour))
}

// The result of an hour, counted from 1.
fn result_of(hours: &[HourResult], hour: u8) -> HourResult
    requires whole { length hours.now ≡ 24 }
    requires low { 1 ≤ hour }
    requires high { hour ≤ 24 }
    ensures { result ≡ result_at hours.now (hour - 1) }
{
    hours[usize::from(hour) - 1]
}

// What a post order takes, where it is not refused.
#[tactic(auto, unfolding(crate::specs::Posts::post_decided))]
fn take(hours: &[HourResult], posted: &Posted, order: &PostOrder) -> Result<u32, Fault>
    requires lengths { length hours.now ≡ 24 }
    requires proper { bad_post order.now ≡ false }
    ensures gives { result ≡ post_decided hours.now posted.now order.now }
    ensures fits { OnOk result (length posted.now < 128) }
{
    let hour = usize::from(order.hour);
    if posted.fills().len() >= 128 {
        return Err(Refusal::PostsFull(hour).without_text());
    }
    let result = result_of(hours, order.hour);
    let left = result.surplus.saturating_sub(posted.filled_in(order.hour));
    if order.side == result.side || left == 0 {
        return Err(Refusal::NothingLeft(hour).without_text());
    }
    let wanted = u64::from(order.volume);
    if order.portion == Portion::Whole && left < wanted {
        return Err(Refusal::WholeTooLarge(hour).without_text());
    }
    Ok(left.min(wanted) as u32)
}

// Takes from what is left of an hour's surplus, at its price, into the place of the list after those used. Answers the fill.
pub fn post(
    hours: &[HourResult],
    posts: &mut [Fill],
    posted: usize,
    order: &PostOrder,
) -> Result<u32, Fault>
    ensures gives { result ≡ post_answer hours.now posts.old posted order.now }
    ensures leaves { posts.new ≡ posts_after (post_answer hours.now posts.old posted order.now) order.now posted posts.old }
    ensures fits { OnOk result (posted < 128) }
{
    if hours.len() != 24 {
        return Err(Refusal::WrongLength.without_text());
    }
    let used = Posted::new(posts, posted)?;
    judge_post(order)?;
    let volume = take(hours, &used, order)?;
    posts[posted] = Fill {
        member: order.member,
        hour: order.hour,
        side: order.side,
        volume,
    };
    Ok(volume)
}
