// The lines of a final day. Each is written where its text is pinned: a type to print would say its parts twice.
ghost use Rattle.std.specs.Prelude.{◌≡◌, ◌<◌, ◌++◌, length, string_bytes, OnOk, slice_index};
ghost use Rattle.book.specs.Views.{sets_of};
ghost use Rattle.clearing.specs.BlockPrice.{block_price};
ghost use Rattle.report.specs.Lines.{share_line, post_line};
ghost use Rattle.report.specs.Final.{hour_text, block_text};

use book::blocks::Blocks;
use clearing::block_prices::block_price;
use clearing::results::HourResult;
use posting::fills::Fill;
use posting::posted::Posted;
use std::alloc::AllocError;

// An hour, counted from 0, in which something was traded: its executed volume and its post fills.
pub(crate) fn push_hour(
    out: &mut String,
    hour: usize,
    res: &HourResult,
    posted: &Posted,
) -> Result<(), AllocError>
    requires { hour < 24 }
    ensures { OnOk result (string_bytes out.new ≡ string_bytes out.old ++ hour_text posted.now hour res.now) }
{
    let number = hour + 1;
    let price = res.price;
    let filled = posted.filled_in(number as u8);
    let volume = u128::from(res.executed) + u128::from(filled);
    if volume == 0 {
        return Ok(());
    }
    writeln!(out, "hour {number} price {price} volume {volume}")
}

// The price of a block, counted from 0.
#[tactic(auto, using(crate::proofs::Checked::proper_set))]
fn price_of(blocks: &Blocks, block: usize, hours: &[HourResult]) -> u32
    requires placed { block < length (sets_of blocks.now) }
    requires whole { length hours.now ≡ 24 }
    ensures { result ≡ block_price (slice_index (sets_of blocks.now) block) hours.now }
{
    let set = blocks.get(block).unwrap();
    block_price(set, hours).unwrap()
}

pub(crate) fn push_block(
    out: &mut String,
    blocks: &Blocks,
    block: usize,
    hours: &[HourResult],
) -> Result<(), AllocError>
    requires placed { block < length (sets_of blocks.now) }
    requires whole { length hours.now ≡ 24 }
    ensures { OnOk result (string_bytes out.new ≡ string_bytes out.old ++ block_text hours.now block (slice_index (sets_of blocks.now) block)) }
{
    let number = block + 1;
    let price = price_of(blocks, block, hours);
    writeln!(out, "block {number} price {price}")
}

// What a row has of an hour, counted from 0.
pub(crate) fn push_share(
    out: &mut String,
    row: usize,
    hour: usize,
    share: u64,
) -> Result<(), AllocError>
    requires { hour < 24 }
    ensures { OnOk result (string_bytes out.new ≡ string_bytes out.old ++ share_line row hour share) }
{
    if share == 0 {
        return Ok(());
    }
    let number = hour + 1;
    writeln!(out, "row {row} hour {number} share {share}")
}

pub(crate) fn push_post(out: &mut String, fill: &Fill) -> Result<(), AllocError>
    ensures { OnOk result (string_bytes out.new ≡ string_bytes out.old ++ post_line fill.now) }
{
    let Fill {
        member,
        hour,
        volume,
        ..
    } = fill;
    writeln!(out, "post {member} hour {hour} fill {volume}")
}
