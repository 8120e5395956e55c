// The parts of a final day's text: hours, blocks, shares and post fills.
ghost use Rattle.std.specs.Prelude.{◌≡◌, ◌<◌, ◌++◌, string_bytes, OnOk};
ghost use Rattle.book.specs.Views.{places, sets_of};
ghost use Rattle.report.specs.Lines.{each};
ghost use Rattle.report.specs.Final.{hour_text, block_text, share_text, row_text, post_text, final_text};

use crate::lines::{push_block, push_hour, push_post, push_share};
use crate::tables::FinalDay;
use posting::fills::Fill;
use std::alloc::AllocError;

#[tactic(auto, using(crate::proofs::Steps::one_more, crate::proofs::Steps::no_more))]
fn push_row(out: &mut String, row: usize, shares: &[[u64; 256]; 24]) -> Result<(), AllocError>
    requires { row < 256 }
    ensures { OnOk result (string_bytes out.new ≡ string_bytes out.old ++ each (share_text row) 0 shares.now) }
{
    for (i, hour) in shares.iter().enumerate() {
        push_share(out, row, i, hour[row])?;
    }
    Ok(())
}

#[tactic(auto, using(crate::proofs::Steps::one_more, crate::proofs::Steps::no_more))]
fn push_posts(out: &mut String, fills: &[Fill]) -> Result<(), AllocError>
    ensures { OnOk result (string_bytes out.new ≡ string_bytes out.old ++ each post_text 0 fills.now) }
{
    for fill in fills {
        push_post(out, fill)?;
    }
    Ok(())
}

impl FinalDay<'_> {
    #[tactic(auto, using(crate::proofs::Steps::one_more, crate::proofs::Steps::no_more))]
    fn push_hours(&self, out: &mut String) -> Result<(), AllocError>
        ensures { OnOk result (string_bytes out.new ≡ string_bytes out.old ++ each (hour_text self.now.posted) 0 self.now.hours.now) }
    {
        for (i, result) in self.hours.iter().enumerate() {
            push_hour(out, i, result, &self.posted)?;
        }
        Ok(())
    }

    #[tactic(auto, using(crate::proofs::Steps::one_more, crate::proofs::Steps::no_more))]
    fn push_blocks(&self, out: &mut String) -> Result<(), AllocError>
        ensures { OnOk result (string_bytes out.new ≡ string_bytes out.old ++ each (block_text self.now.hours.now) 0 (sets_of self.now.blocks.now)) }
    {
        // By number: that a set is one of the day's is known by its place.
        for k in 0..self.blocks.len() {
            push_block(out, self.blocks, k, self.hours)?;
        }
        Ok(())
    }

    // A row is printed whatever stands in its place.
    #[tactic(auto, using(crate::proofs::Steps::no_more), unfolding(book::specs::Views::places))]
    fn push_rows(&self, out: &mut String, shares: &[[u64; 256]; 24]) -> Result<(), AllocError>
        ensures { OnOk result (string_bytes out.new ≡ string_bytes out.old ++ each (row_text shares.now) 0 (places self.now.rows.now)) }
    {
        for row in 0..self.rows.len() {
            push_row(out, row, shares)?;
        }
        Ok(())
    }

    // The fills come beside the day, so that what is printed of them is told apart from what hours and shares count.
    #[tactic(auto, using(crate::proofs::Steps::four), unfolding(crate::specs::Final::final_text))]
    pub(crate) fn push(&self, out: &mut String, fills: &[Fill]) -> Result<(), AllocError>
        requires { fills.now ≡ self.now.posted }
        ensures { OnOk result (string_bytes out.new ≡ string_bytes out.old ++ final_text (places self.now.rows.now) (sets_of self.now.blocks.now) self.now.hours.now self.now.marks.now self.now.posted) }
    {
        let shares = self.shares();
        self.push_hours(out)?;
        self.push_blocks(out)?;
        self.push_rows(out, &shares)?;
        push_posts(out, fills)?;
        Ok(())
    }
}
