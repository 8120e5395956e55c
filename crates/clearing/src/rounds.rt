// The rounds: the lowest ranked failing block is dropped, round by round, until none fails.
ghost use Rattle.std.specs.Prelude.{◌≡◌, ℕ, ◌+◌, ◌<◌, ◌≤◌, Bool, true, false, List, length, set, slice_set};
ghost use Rattle.clearing.specs.declared.results.HourResult.{HourResult};
ghost use Rattle.clearing.specs.Hours.{day_hours};
ghost use Rattle.clearing.specs.Blocks.{small_blocks};
ghost use Rattle.clearing.specs.Rounds.{outcome, rounds_of};

use crate::blocks::Block;
use crate::failing::Field;
use crate::marks::Mark;
use crate::results::HourResult;

// The results of the hours, for each set of standing blocks.
pub(crate) trait Pricer {
    ghost priced: { Self → List Bool → List HourResult };

    // How many places of blocks it knows.
    ghost known: { Self → ℕ };

    fn price(&self, standing: &[bool], results: &mut [HourResult])
        requires even { length standing.now ≡ known self.now }
        requires whole { length results.old ≡ day_hours }
        ensures { results.new ≡ priced self.now standing.now };

    // The same after a block was dropped, from what the hours had before.
    fn reprice(&self, standing: &[bool], dropped: usize, results: &mut [HourResult])
        requires even { length standing.now ≡ known self.now }
        requires placed { dropped < length standing.now }
        requires whole { length results.old ≡ day_hours }
        requires before { results.old ≡ priced self.now (slice_set standing.now dropped true) }
        ensures { results.new ≡ priced self.now standing.now };
}

// Runs the rounds, and answers how many there were. Its tables come apart: it writes two of them while a `Field` reads the
// others.
pub(crate) fn settle<P: Pricer>(
    pricer: &P,
    blocks: &[Option<Block>],
    standing: &mut [bool],
    marks: &mut [Mark],
    results: &mut [HourResult],
) -> u32
    requires few { length blocks.now ≤ 256 }
    requires small { small_blocks blocks.now ≡ true }
    requires even { length standing.old ≡ length blocks.now }
    requires marked { length marks.old ≡ length blocks.now }
    requires known { P.known pricer.now ≡ length blocks.now }
    requires whole { length results.old ≡ day_hours }
    ensures rounds { outcome standing.new marks.new result ≡ rounds_of blocks.now (P.priced pricer.now) }
    ensures results { results.new ≡ P.priced pricer.now standing.new }
{
    standing.fill(true);
    marks.fill(Mark::Kept);
    let mut round = 1;
    pricer.price(standing, results);
    while let Some((i, cause)) = (Field { blocks, standing }).lowest_failing(results) {
        standing[i] = false;
        marks[i] = Mark::Dropped(round, cause);
        round += 1;
        pricer.reprice(standing, i, results);
    }
    round
}
