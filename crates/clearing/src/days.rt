// What a day's rounds read: the rows, the blocks among them, and the reference values.
ghost use Rattle.std.specs.Prelude.{◌≡◌, ◌≤◌, true, length};
ghost use Rattle.clearing.specs.Blocks.{small_blocks};

use crate::blocks::Block;
use book::rows::Row;
use curves::ticks::Tick;

#[derive(Clone, Copy)]
pub(crate) struct Day<'r, 'b, 't> {
    pub(crate) rows: &'r [Row],
    pub(crate) blocks: &'b [Option<Block>],
    pub(crate) references: &'t [Tick; 24],
    ghost few: { length rows.now ≤ 256 },
    ghost placed: { length blocks.now ≤ 256 },
    ghost small: { small_blocks blocks.now ≡ true },
}
