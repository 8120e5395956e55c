// The tables of a final day, once they are known to be whole and priced.
ghost use Rattle.std.specs.Prelude.{◌≡◌, length, Ok, IfOk};
ghost use Rattle.faults.specs.Answers.{viewed};
ghost use Rattle.posting.specs.Posts.{listed};
ghost use Rattle.report.specs.Final.{prices_refused, final_refused};

use crate::checks::check_prices;
use book::blocks::Blocks;
use book::rows::Row;
use clearing::marks::Mark;
use clearing::results::HourResult;
use faults::fault::{Fault, Refusal};
use posting::fills::Fill;
use posting::posted::Posted;

#[derive(Drop)]
pub(crate) struct FinalDay<'a> {
    pub(crate) rows: &'a [Row],
    pub(crate) blocks: &'a Blocks,
    pub(crate) hours: &'a [HourResult],
    pub(crate) marks: &'a [Mark],
    pub(crate) posted: Posted<'a>,
    ghost all_rows: { length rows.now ≡ 256 },
    ghost all_hours: { length hours.now ≡ 24 },
    ghost all_marks: { length marks.now ≡ 256 },
    ghost priced: { prices_refused hours.now ≡ Ok tt },
}

impl<'a> FinalDay<'a> {
    // Refused where a table has the wrong length or an hour's price is off the ladder.
    pub(crate) fn new(
        rows: &'a [Row],
        blocks: &'a Blocks,
        hours: &'a [HourResult],
        marks: &'a [Mark],
        posts: &'a [Fill],
        posted: usize,
    ) -> Result<FinalDay<'a>, Fault>
        ensures answer { viewed (λ _. tt) result ≡ final_refused (length rows.now) (length hours.now) (length marks.now) (length posts.now) hours.now }
        ensures same { IfOk result (λ d. (d.rows.now ≡ rows.now) × (d.blocks.now ≡ blocks.now) × (d.hours.now ≡ hours.now) × (d.marks.now ≡ marks.now) × (d.posted ≡ listed posted posts.now)) }
    {
        if rows.len() != 256 || hours.len() != 24 || marks.len() != 256 {
            return Err(Refusal::WrongLength.without_text());
        }
        let posted = Posted::new(posts, posted)?;
        check_prices(hours)?;
        Ok(FinalDay {
            rows,
            blocks,
            hours,
            marks,
            posted,
        })
    }
}
