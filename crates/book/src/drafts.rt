// An order as a caller hands it in: any numbers.
ghost use Rattle.std.specs.Prelude.{◌≡◌, Ok, Err, cond, nat_lt};
ghost use Rattle.faults.specs.Answers.{viewed, out_of_range};
ghost use Rattle.curves.specs.Views.{quotes};
ghost use Rattle.book.specs.Drafted.{pairs_of};

use curves::quotes::Quote;
use curves::sides::Side;
use faults::fault::{Fault, Refusal};

// The first `count` pairs count; the rest fill the array. No list with a length of its own: a caller may count wrong, and
// is refused.
#[derive(Clone, Copy, Debug)]
pub struct Quotes {
    pub pairs: [Quote; 8],
    pub count: usize,
}

impl Quotes {
    // Refused where more pairs are said to count than there are.
    pub(crate) fn listed(&self) -> Result<&[Quote], Fault>
        ensures { viewed (λ pairs. quotes pairs.now) result ≡ cond (nat_lt 8 self.now.count) (Err out_of_range) (Ok (pairs_of self.now)) }
    {
        if self.count > 8 {
            return Err(Refusal::OutOfRange(0).without_text());
        }
        Ok(&self.pairs[..self.count])
    }
}

#[derive(Clone, Copy, Debug)]
pub enum Terms {
    Market(u32),
    Step(Quotes),
    Linear(Quotes),
}

#[derive(Clone, Copy, Debug)]
pub struct Draft {
    pub row: usize,
    pub member: u32,
    pub product: u32,
    pub side: Side,
    pub terms: Terms,
}
