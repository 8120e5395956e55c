// Each row's share of an hour.
ghost use Rattle.std.specs.Prelude.{◌≡◌, ◌-◌, length, MatchResult, OnOk};
ghost use Rattle.book.specs.Views.{places, sets_of};
ghost use Rattle.clearing.specs.Results.{result_at};
ghost use Rattle.clearing.specs.Sharing.{hour_shares, HourShared};
ghost use Rattle.posting.specs.Posts.{listed, filled_in};
ghost use Rattle.readings.specs.Readings.{right_shares, shares_answer};

use crate::results::result_in;
use book::blocks::Blocks;
use book::rows::Row;
use clearing::marks::Mark;
use clearing::results::HourResult;
use clearing::sharing::hour_shares;
use faults::fault::{Fault, Refusal};
use posting::fills::Fill;
use posting::posted::Posted;

// Writes each row's share of an hour, counted from 1, with what the first `posted` places of the post list took from it. The
// tables are lent one by one, as a day keeps them.
pub fn shares_in(
    rows: &[Row],
    blocks: &Blocks,
    hours: &[HourResult],
    marks: &[Mark],
    posts: &[Fill],
    posted: usize,
    hour: u8,
    shares: &mut [u64],
) -> Result<(), Fault>
    ensures answer { result ≡ shares_answer (right_shares (length rows.now) (length hours.now) (length marks.now) (length posts.now) (length shares.old)) hours.now hour }
    ensures each { MatchResult result (λ _. shares.new ≡ hour_shares (places rows.now) (sets_of blocks.now) marks.now (hour - 1) (result_at hours.now (hour - 1)) (filled_in hour (listed posted posts.now))) (λ _. shares.new ≡ shares.old) }
    ensures shared { OnOk result (HourShared (places rows.now) (sets_of blocks.now) marks.now (hour - 1) (result_at hours.now (hour - 1)) (filled_in hour (listed posted posts.now))) }
{
    if rows.len() != 256 || marks.len() != 256 || shares.len() != 256 {
        return Err(Refusal::WrongLength.without_text());
    }
    let used = Posted::new(posts, posted)?;
    let result = result_in(hours, hour)?;
    hour_shares(
        rows,
        blocks,
        marks,
        hour,
        &result,
        used.filled_in(hour),
        shares,
    )
}
