// Orders from what is asked for; no other call makes one.
ghost use Rattle.std.specs.Prelude.{◌≡◌};
ghost use Rattle.faults.specs.Answers.{viewed};
ghost use Rattle.curves.specs.Offers.{stairs, slopes};
ghost use Rattle.curves.specs.Orders.{market_of, step_of, linear_of, market_asked, pairs_asked};
ghost use Rattle.curves.specs.Views.{quotes};

use crate::building::bad_volume;
use crate::chains::Chain;
use crate::lines::Linear;
use crate::markets::Market;
use crate::quotes::Quote;
use crate::sides::Side;
use crate::steps::Step;
use faults::fault::{Fault, Refusal};

impl Market {
    pub fn new(side: Side, volume: u32) -> Result<Market, Fault>
        ensures { viewed market_of result ≡ market_asked side volume }
    {
        if bad_volume(volume) {
            return Err(Refusal::OutOfRange(0).without_text());
        }
        Ok(Market { side, volume })
    }
}

impl Step {
    pub fn new(side: Side, asked: &[Quote]) -> Result<Step, Fault>
        ensures { viewed step_of result ≡ pairs_asked stairs side (quotes asked.now) }
    {
        let chain = Chain::new(side, asked)?;
        Ok(Step { chain })
    }
}

impl Linear {
    pub fn new(side: Side, asked: &[Quote]) -> Result<Linear, Fault>
        ensures { viewed linear_of result ≡ pairs_asked slopes side (quotes asked.now) }
    {
        let chain = Chain::new(side, asked)?;
        Ok(Linear { chain })
    }
}
