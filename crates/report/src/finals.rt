// What is printed of a final day: hours, blocks, shares and post fills.
ghost use Rattle.std.specs.Prelude.{◌≡◌, ◌++◌, length, string_bytes, OnOk};
ghost use Rattle.book.specs.Views.{places, sets_of};
ghost use Rattle.posting.specs.Posts.{listed};
ghost use Rattle.report.specs.Final.{final_refused, final_text, verdict_of, Kept};

use crate::stops::Stop;
use crate::tables::FinalDay;
use book::blocks::Blocks;
use book::rows::Row;
use clearing::marks::Mark;
use clearing::results::HourResult;
use posting::fills::Fill;

// The final result of a day. Refused, with nothing printed, where a table has the wrong length or an hour's price is off the ladder.
pub fn push_final(
    out: &mut String,
    rows: &[Row],
    blocks: &Blocks,
    hours: &[HourResult],
    marks: &[Mark],
    posts: &[Fill],
    posted: usize,
) -> Result<(), Stop>
    ensures answer { verdict_of result ≡ final_refused (length rows.now) (length hours.now) (length marks.now) (length posts.now) hours.now }
    ensures text { OnOk result (string_bytes out.new ≡ string_bytes out.old ++ final_text (places rows.now) (sets_of blocks.now) hours.now marks.now (listed posted posts.now)) }
    ensures kept { Kept (verdict_of result) (string_bytes out.old) (string_bytes out.new) }
{
    let day = FinalDay::new(rows, blocks, hours, marks, posts, posted)?;
    day.push(out, day.posted.fills())?;
    Ok(())
}
