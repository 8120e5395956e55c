// One day from its first order to its end.
ghost use Rattle.std.specs.Prelude.{◌≡◌, ◌+◌, IfOk};

use book::drafts::Draft;
use book::rows::Row;
use calls::posts::PostOrder;
use clearing::marks::Mark;
use clearing::results::HourResult;
use faults::fault::Fault;
use phases::states::{Final, Fixed, Open, Post};
use posting::fills::Fill;

// Enters an order and fixes the day.
fn fix_first(
    open: Open,
    rows: &mut [Row],
    hours: &mut [HourResult],
    marks: &mut [Mark],
    draft: &Draft,
) -> Result<Fixed, Fault> {
    let (open, _) = open.enter(rows, draft).map_err(|refused| refused.1)?;
    let (fixed, _) = open.fix(rows, hours, marks).map_err(|refused| refused.1)?;
    Ok(fixed)
}

// Recalls a fixed day to change the order, and fixes it again. A day that cannot be recalled is confirmed as it stands.
fn fix_again(
    fixed: Fixed,
    rows: &mut [Row],
    hours: &mut [HourResult],
    marks: &mut [Mark],
    draft: &Draft,
) -> Result<Fixed, Fault> {
    let (open, _) = match fixed.recall(hours, marks) {
        Ok(recalled) => recalled,
        Err((fixed, fault)) => {
            let _ = fixed.confirm();
            return Err(fault);
        }
    };
    let (open, _) = open.change(rows, draft).map_err(|refused| refused.1)?;
    let (fixed, _) = open.fix(rows, hours, marks).map_err(|refused| refused.1)?;
    Ok(fixed)
}

// Takes one post order and ends the day.
fn post_once(
    post: Post,
    hours: &[HourResult],
    posts: &mut [Fill],
    order: &PostOrder,
) -> Result<Final, Fault>
    ensures { IfOk result (λ day. day.posted ≡ post.posted + 1) }
{
    let (post, _) = post.post(hours, posts, order).map_err(|refused| refused.1)?;
    let (day, _) = post.finish();
    Ok(day)
}

// An order is entered, the day fixed, recalled, the order changed, the day fixed again and confirmed, and a post order taken.
pub fn whole_day(
    open: Open,
    rows: &mut [Row],
    hours: &mut [HourResult],
    marks: &mut [Mark],
    posts: &mut [Fill],
    first: &Draft,
    second: &Draft,
    order: &PostOrder,
) -> Result<Final, Fault>
    ensures { IfOk result (λ day. day.posted ≡ 1) }
{
    let fixed = fix_first(open, rows, hours, marks, first)?;
    let fixed = fix_again(fixed, rows, hours, marks, second)?;
    let (post, _) = fixed.confirm();
    post_once(post, hours, posts, order)
}
