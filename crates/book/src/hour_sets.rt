// The calls on the day's block products.
ghost use Rattle.std.specs.Prelude.{◌≡◌, ◌<◌, false, [], length, OnErr};
ghost use Rattle.book.specs.Conditions.{decide, unless};
ghost use Rattle.book.specs.HourSets.{bad_hours, push_refusals, pushed, hours_at};
ghost use Rattle.book.specs.Views.{sets_of};

use crate::blocks::Blocks;
use faults::fault::{Fault, Refusal};

fn bad_hours(hours: u32) -> bool
    ensures { result ≡ bad_hours hours }
{
    !(1..=16_777_215).contains(&hours)
}

impl Blocks {
    pub fn none() -> Blocks
        ensures { sets_of result ≡ [] }
    {
        Blocks {
            sets: [1; 14],
            count: 0,
        }
    }

    // The hour sets of the day's blocks.
    pub fn listed(&self) -> &[u32]
        ensures { result.now ≡ sets_of self.now }
    {
        &self.sets[..self.count]
    }

    // Adds a block. Refused where its hours are out of range or 14 blocks are there.
    pub fn push(&mut self, hours: u32) -> Result<(), Fault>
        ensures gives { result ≡ decide (push_refusals (sets_of self.old) hours) tt }
        ensures leaves { sets_of self.new ≡ unless (push_refusals (sets_of self.old) hours) (pushed (sets_of self.old) hours) (sets_of self.old) }
        ensures kept { OnErr result (self.new ≡ self.old) }
    {
        if bad_hours(hours) || self.count >= 14 {
            return Err(Refusal::OutOfRange(0).without_text());
        }
        self.sets[self.count] = hours;
        self.count += 1;
        Ok(())
    }

    pub fn len(&self) -> usize
        ensures { result ≡ length (sets_of self.now) }
    {
        self.listed().len()
    }

    // The hours of a block, counted from 0.
    pub fn get(&self, block: usize) -> Option<u32>
        ensures { result ≡ hours_at (sets_of self.now) block }
    {
        self.listed().get(block).copied()
    }
}
