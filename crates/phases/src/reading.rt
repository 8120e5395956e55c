// What can be read of a day whose prices stand.
ghost use Rattle.std.specs.Prelude.{◌≡◌, ℕ, ◌-◌, length, MatchResult, OnOk};
ghost use Rattle.book.specs.Views.{places, sets_of};
ghost use Rattle.clearing.specs.Results.{result_at};
ghost use Rattle.clearing.specs.Sharing.{hour_shares, HourShared};
ghost use Rattle.posting.specs.Posts.{listed, filled_in};
ghost use Rattle.readings.specs.Readings.{result_in, mark_in, block_price_in, right_shares, shares_answer};

use crate::states::{Final, Fixed, Post};
use crate::writing::Written;
use book::rows::Row;
use clearing::marks::Mark;
use clearing::results::HourResult;
use faults::fault::Fault;
use posting::fills::Fill;
use readings::block_prices::block_price_in;
use readings::results::{mark_in, result_in};
use readings::shares::shares_in;

// A day whose prices stand, with the places of its post list that count.
pub trait Prices: Written {
    ghost filled: { Self → ℕ };

    fn posted(&self) -> usize
        ensures { result ≡ filled self.now };

    // The result of an hour, counted from 1.
    fn result(&self, hours: &[HourResult], hour: u8) -> Result<HourResult, Fault>
        ensures { result ≡ result_in hours.now hour }
    {
        result_in(hours, hour)
    }

    // Whether the block order of a row stands, or when and why it was dropped.
    fn mark(&self, marks: &[Mark], row: usize) -> Result<Mark, Fault>
        ensures { result ≡ mark_in marks.now row }
    {
        mark_in(marks, row)
    }

    // The price of a block, counted from 1.
    fn block_price(&self, hours: &[HourResult], block: usize) -> Result<u32, Fault>
        ensures { result ≡ block_price_in hours.now (sets_of (Self.Written.beginning self.now).blocks) block }
    {
        block_price_in(hours, &self.opening().blocks, block)
    }

    // Writes each row's share of an hour, counted from 1.
    fn shares(
        &self,
        rows: &[Row],
        hours: &[HourResult],
        marks: &[Mark],
        posts: &[Fill],
        hour: u8,
        shares: &mut [u64],
    ) -> Result<(), Fault>
        ensures answer { result ≡ shares_answer (right_shares (length rows.now) (length hours.now) (length marks.now) (length posts.now) (length shares.old)) hours.now hour }
        ensures each { MatchResult result (λ _. shares.new ≡ hour_shares (places rows.now) (sets_of (Self.Written.beginning self.now).blocks) marks.now (hour - 1) (result_at hours.now (hour - 1)) (filled_in hour (listed (filled self.now) posts.now))) (λ _. shares.new ≡ shares.old) }
        ensures shared { OnOk result (HourShared (places rows.now) (sets_of (Self.Written.beginning self.now).blocks) marks.now (hour - 1) (result_at hours.now (hour - 1)) (filled_in hour (listed (filled self.now) posts.now))) }
    {
        shares_in(
            rows,
            &self.opening().blocks,
            hours,
            marks,
            posts,
            self.posted(),
            hour,
            shares,
        )
    }
}

impl Prices for Fixed {
    ghost filled = { λ _. 0 };

    fn posted(&self) -> usize {
        0
    }
}

impl Prices for Post {
    ghost filled = { λ s. s.posted };

    fn posted(&self) -> usize {
        self.posted
    }
}

impl Prices for Final {
    ghost filled = { λ s. s.posted };

    fn posted(&self) -> usize {
        self.posted
    }
}
