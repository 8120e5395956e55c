// The shares of the rows in each hour.
ghost use Rattle.std.specs.Prelude.{◌≡◌, ◌<◌};
ghost use Rattle.book.specs.Views.{places, sets_of};
ghost use Rattle.report.specs.Final.{shares_in, day_shares};

use crate::tables::FinalDay;
use clearing::sharing::hour_shares;

impl FinalDay<'_> {
    // The shares of an hour, counted from 0.
    fn share_hour(&self, hour: usize) -> [u64; 256]
        requires { hour < 24 }
        ensures { result ≡ shares_in (places self.now.rows.now) (sets_of self.now.blocks.now) self.now.marks.now self.now.hours.now self.now.posted hour }
    {
        let mut shares = [0; 256];
        let number = hour as u8 + 1;
        let filled = self.posted.filled_in(number);
        hour_shares(
            self.rows,
            self.blocks,
            self.marks,
            number,
            &self.hours[hour],
            filled,
            &mut shares,
        )
        .unwrap();
        shares
    }

    pub(crate) fn shares(&self) -> [[u64; 256]; 24]
        ensures { result ≡ day_shares (places self.now.rows.now) (sets_of self.now.blocks.now) self.now.marks.now self.now.hours.now self.now.posted }
    {
        let mut shares = [[0; 256]; 24];
        for (hour, table) in shares.iter_mut().enumerate() {
            *table = self.share_hour(hour);
        }
        shares
    }
}
