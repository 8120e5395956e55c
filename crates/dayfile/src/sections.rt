// The sections of a day before its orders: reference values and block products.
ghost use Rattle.std.specs.Prelude.{◌≡◌, ℕ, ◌≤◌, IfOk};
ghost use Rattle.faults.specs.Answers.{viewed};
ghost use Rattle.book.specs.Views.{sets_of};
ghost use Rattle.text.specs.Format.{item};
ghost use Rattle.text.specs.Items.{number as numberItem};
ghost use Rattle.text.specs.Staged.{many};
ghost use Rattle.text.specs.Tokens.{told, ahead};
ghost use Rattle.dayfile.specs.Day.{count_text, hours_text, set_line, blocks_text};
ghost use Rattle.dayfile.specs.Views.{tick_values};

use crate::items::{Item, ReadItem, read_list};
use book::blocks::Blocks;
use curves::ticks::Tick;
use faults::fault::Fault;
use text::close::Close;
use text::reader::Reader;

// A line with a word and a count.
#[tactic(auto, unfolding(crate::specs::Day::count_text))]
pub fn read_count(reader: &mut Reader, word: &[u8], low: u32, high: u32) -> Result<u32, Fault>
    ensures told { told result reader.new ≡ (count_text word.now low high).read 0 reader.old.at (ahead reader.old) }
    ensures input { reader.new.input.now ≡ reader.old.input.now }
    ensures range { IfOk result (λ n. n ≤ high) }
{
    let line = reader.at;
    reader.keyword(line, word, Close::Space)?;
    reader.number(line, low, high, Close::Line)
}

impl Item for Tick {
    ghost Plain = { ℕ };

    ghost plain = { λ t. t.value };

    ghost form = { item (numberItem 1 300000) };
}

impl ReadItem for Tick {
    fn read(reader: &mut Reader, line: usize, end: Close) -> Result<Tick, Fault> {
        let tick = reader.number(line, 1, 300_000, end)?;
        Ok(Tick::new(tick).unwrap())
    }
}

// The reference value of each hour.
#[tactic(auto, unfolding(crate::specs::Day::hours_text))]
pub(crate) fn read_references(reader: &mut Reader) -> Result<[Tick; 24], Fault>
    ensures told { told (viewed tick_values result) reader.new ≡ hours_text.read 0 reader.old.at (ahead reader.old) }
    ensures input { reader.new.input.now ≡ reader.old.input.now }
{
    read_count(reader, b"hours", 24, 24)?;
    let line = reader.at;
    let mut ticks = [Tick::new(1).unwrap(); 24];
    read_list(reader, line, &mut ticks)?;
    Ok(ticks)
}

// As many lines with an hour set as there are blocks.
fn read_sets(reader: &mut Reader, n: u32) -> Result<Blocks, Fault>
    requires { n ≤ 14 }
    ensures told { told (viewed sets_of result) reader.new ≡ (many set_line n).read 0 reader.old.at (ahead reader.old) }
    ensures input { reader.new.input.now ≡ reader.old.input.now }
{
    let mut blocks = Blocks::none();
    for _ in 0..n {
        let line = reader.at;
        let hours = reader.number(line, 1, 16_777_215, Close::Line)?;
        blocks.push(hours).unwrap();
    }
    Ok(blocks)
}

// The block products.
#[tactic(auto, unfolding(crate::specs::Day::blocks_text))]
pub(crate) fn read_blocks(reader: &mut Reader) -> Result<Blocks, Fault>
    ensures told { told (viewed sets_of result) reader.new ≡ blocks_text.read 0 reader.old.at (ahead reader.old) }
    ensures input { reader.new.input.now ≡ reader.old.input.now }
{
    let n = read_count(reader, b"blocks", 0, 14)?;
    read_sets(reader, n)
}
