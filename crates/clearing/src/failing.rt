// The lowest ranked of the standing blocks that fail at a round's results.
ghost use Rattle.std.specs.Prelude.{◌≡◌, ◌<◌, ◌≤◌, true, length, Some, None};
ghost use Rattle.clearing.specs.Hours.{day_hours};
ghost use Rattle.clearing.specs.Blocks.{small_blocks};
ghost use Rattle.clearing.specs.Verdicts.{adds_of, load_of, short_in, verdict};
ghost use Rattle.clearing.specs.Rounds.{claim_at, lower_of, lowest_upto, blocks_before, Within};

use crate::blocks::Block;
use crate::hours::Hour;
use crate::marks::Cause;
use crate::results::HourResult;
use allocation::block::BlockClaim;
use allocation::claim::Claim;
use curves::sides::Side;

// The places of a day's blocks, and which of them stand in a round: prices rest on who stands, and not on the rounds and
// causes that the marks keep, so the two are told apart.
#[derive(Clone, Copy)]
pub(crate) struct Field<'b, 's> {
    pub(crate) blocks: &'b [Option<Block>],
    pub(crate) standing: &'s [bool],
    ghost few: { length blocks.now ≤ 256 },
    ghost even: { length standing.now ≡ length blocks.now },
    ghost small: { small_blocks blocks.now ≡ true },
}

// What a place asks for on a side in an hour.
fn asked(place: &Option<Block>, stands: bool, side: Side, hour: Hour) -> u64
    ensures { result ≡ adds_of stands side hour.index place.now }
{
    match place {
        Some(block) if stands && side == block.side && hour.is_in(block.hours) => {
            u64::from(block.volume)
        }
        _ => 0,
    }
}

impl<'b, 's> Field<'b, 's> {
    // What the standing blocks of a side ask for together in an hour.
    pub(crate) fn load(&self, side: Side, hour: Hour) -> u64
        ensures { result ≡ load_of self.now.blocks.now self.now.standing.now side hour.index }
    {
        self.blocks
            .iter()
            .zip(self.standing)
            .map(|(place, stands)| asked(place, *stands, side, hour))
            .sum()
    }

    // Whether an hour is one of the block's and executes less than the standing blocks of its side ask for.
    fn short_in(&self, block: &Block, results: &[HourResult], hour: Hour) -> bool
        requires { length results.now ≡ day_hours }
        ensures { result ≡ short_in self.now.blocks.now self.now.standing.now results.now block.now hour.index }
    {
        hour.is_in(block.hours) && self.load(block.side, hour) > results[hour.index].executed
    }

    fn claim_at(&self, i: usize) -> Option<BlockClaim>
        requires { i < length self.now.blocks.now }
        ensures { result ≡ claim_at self.now.blocks.now i }
    {
        self.blocks[i].map(|block| block.claim())
    }

    // Of the lowest failing block so far and block `i`, which fails too, the lower ranked.
    fn lower(&self, lowest: Option<(usize, Cause)>, i: usize, cause: Cause) -> (usize, Cause)
        requires placed { i < length self.now.blocks.now }
        requires within { Within lowest (length self.now.blocks.now) }
        ensures is { Some result ≡ lower_of (blocks_before self.now.blocks.now) lowest i (Some cause) }
        ensures within { result.0 < length self.now.blocks.now }
    {
        match lowest {
            Some((w, c)) if !self.claim_at(w).goes_before(&self.claim_at(i)) => (w, c),
            _ => (i, cause),
        }
    }

    pub(crate) fn lowest_failing(&self, results: &[HourResult]) -> Option<(usize, Cause)>
        requires { length results.now ≡ day_hours }
        ensures is { result ≡ lowest_upto (verdict self.now.blocks.now self.now.standing.now results.now) (blocks_before self.now.blocks.now) (length self.now.blocks.now) }
        ensures within { Within result (length self.now.blocks.now) }
    {
        // A nest over blocks and hours, left by the label at a block's first short hour.
        let mut lowest = None;
        'block: for (i, place) in self.blocks.iter().enumerate() {
            let Some(block) = place else {
                continue 'block;
            };
            if !self.standing[i] {
                continue 'block;
            }
            if block.loses(results) {
                lowest = Some(self.lower(lowest, i, Cause::Loss));
                continue 'block;
            }
            for index in 0..24 {
                if self.short_in(block, results, Hour { index }) {
                    lowest = Some(self.lower(lowest, i, Cause::Shortage));
                    continue 'block;
                }
            }
        }
        lowest
    }
}
