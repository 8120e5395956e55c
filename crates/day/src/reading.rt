// What can be read of a day.
ghost use Rattle.std.specs.Prelude.{◌≡◌, ◌-◌, length, MatchResult};
ghost use Rattle.book.specs.Views.{places, sets_of};
ghost use Rattle.clearing.specs.Results.{result_at};
ghost use Rattle.clearing.specs.Sharing.{hour_shares};
ghost use Rattle.dayfile.specs.Written.{bytes_of, write_answer, output_after};
ghost use Rattle.posting.specs.Posts.{listed, filled_in};
ghost use Rattle.readings.specs.Readings.{result_in, mark_in, block_price_in};
ghost use Rattle.day.specs.Readings.{outside_open, shares_read};
ghost use Rattle.day.specs.Views.{day_of};

use crate::days::Day;
use crate::phases::Phase;
use book::ranges::bad_hour;
use clearing::marks::Mark;
use clearing::results::HourResult;
use dayfile::writing::write;
use faults::fault::{Fault, Refusal};
use readings::block_prices::block_price_in;
use readings::results::{mark_in, result_in};
use readings::shares::shares_in;

// What was read, outside phase open.
fn outside_open<T: Copy>(phase: Phase, read: Result<T, Fault>) -> Result<T, Fault>
    ensures { result ≡ outside_open phase read }
{
    let value = read?;
    if phase == Phase::Open {
        return Err(Refusal::WrongPhase.without_text());
    }
    Ok(value)
}

impl Day {
    pub fn phase(&self) -> Phase
        ensures { result ≡ (day_of self.now).phase }
    {
        self.phase
    }

    // Price, executed volume and surplus of an hour, counted from 1.
    pub fn result(&self, hour: u8) -> Result<HourResult, Fault>
        ensures { result ≡ outside_open self.now.phase (result_in self.now.hours hour) }
    {
        outside_open(self.phase, result_in(&self.hours, hour))
    }

    // The mark of a row.
    pub fn mark(&self, row: usize) -> Result<Mark, Fault>
        ensures { result ≡ outside_open self.now.phase (mark_in self.now.marks row) }
    {
        outside_open(self.phase, mark_in(&self.marks, row))
    }

    // The price of a block, counted from 1.
    pub fn block_price(&self, block: usize) -> Result<u32, Fault>
        ensures { result ≡ outside_open self.now.phase (block_price_in self.now.hours (sets_of self.now.opening.blocks) block) }
    {
        outside_open(
            self.phase,
            block_price_in(&self.hours, &self.opening.blocks, block),
        )
    }

    // Writes the day's text at the front of an output, in any phase.
    pub fn write(&self, out: &mut [u8]) -> Result<usize, Fault>
        ensures gives { result ≡ write_answer (length self.now.rows) (bytes_of self.now.opening self.now.rows) out.old }
        ensures leaves { out.new ≡ output_after (length self.now.rows) (bytes_of self.now.opening self.now.rows) out.old }
    {
        write(&self.opening, &self.rows, out)
    }

    // Writes each row's share of an hour, counted from 1.
    pub fn shares(&self, hour: u8, shares: &mut [u64]) -> Result<(), Fault>
        ensures answer { result ≡ shares_read self.now.phase (length shares.old) self.now.hours hour }
        ensures each { MatchResult result (λ _. shares.new ≡ hour_shares (places self.now.rows) (sets_of self.now.opening.blocks) self.now.marks (hour - 1) (result_at self.now.hours (hour - 1)) (filled_in hour (listed self.now.posted self.now.posts))) (λ _. shares.new ≡ shares.old) }
    {
        if shares.len() != 256 {
            return Err(Refusal::WrongLength.without_text());
        }
        if bad_hour(hour) {
            return Err(Refusal::OutOfRange(0).without_text());
        }
        if self.phase == Phase::Open {
            return Err(Refusal::WrongPhase.without_text());
        }
        shares_in(
            &self.rows,
            &self.opening.blocks,
            &self.hours,
            &self.marks,
            &self.posts,
            self.posted,
            hour,
            shares,
        )
    }
}
