// A day, from its bytes into the tables it is lent.
ghost use Rattle.std.specs.Prelude.{◌≡◌, ◌≤◌, None, length, replicate, OnErr};
ghost use Rattle.faults.specs.Answers.{viewed};
ghost use Rattle.book.specs.Views.{places};
ghost use Rattle.text.specs.Format.{Faithful, onward, got};
ghost use Rattle.text.specs.Tokens.{told, ahead};
ghost use Rattle.dayfile.specs.Day.{empty_places, day_text};
ghost use Rattle.dayfile.specs.Entered.{LoadsItsText};
ghost use Rattle.dayfile.specs.Loading.{opened, opened_by, right_lengths, loading, head_of, load_head, load_places};

use crate::opening::Opening;
use crate::orders::read_orders;
use crate::sections::{read_blocks, read_references};
use book::blanks::{Blank, clear};
use book::rows::Row;
use faults::fault::{Fault, Refusal};
use text::reader::Reader;

// The three sections, the orders into an empty table.
#[tactic(auto, unfolding(crate::specs::Day::day_text))]
fn read_day(reader: &mut Reader, rows: &mut [Row]) -> Result<Opening, Fault>
    requires whole { length rows.old ≡ 256 }
    requires empty { places rows.old ≡ empty_places }
    ensures told { told (viewed (opened_by (places rows.new)) result) reader.new ≡ onward (day_text.read 0 reader.old.at (ahead reader.old)) (λ d q cs. got (opened d) q cs) }
    ensures input { reader.new.input.now ≡ reader.old.input.now }
{
    let references = read_references(reader)?;
    let blocks = read_blocks(reader)?;
    let given = read_orders(reader, rows, blocks.len())?;
    Ok(Opening {
        references,
        blocks,
        given,
    })
}

// After a refusal: the reader back where it was, and every row empty.
fn undo(reader: &mut Reader, start: usize, table: &mut [Row])
    requires { start ≤ length reader.old.input.now }
    ensures rows { table.new ≡ replicate (length table.old) None }
    ensures at { reader.new.at ≡ start }
    ensures input { reader.new.input.now ≡ reader.old.input.now }
{
    reader.at = start;
    clear(table);
}

// Opens the day whose text begins at the reader's place: the orders go into the rows, with the stamps from 1 on, and every
// other place is emptied. The answer carries what else the day begins with, and the reader stands where its text ends.
// A refused load leaves every place empty, and the reader where it was. What is accepted is the text of the day that it
// leaves (`text`).
#[tactic(auto, using(crate::proofs::Described::faithful_day))]
pub fn load<H: Blank, M: Blank, P: Blank>(
    reader: &mut Reader,
    rows: &mut [Row],
    hours: &mut [H],
    marks: &mut [M],
    posts: &mut [P],
) -> Result<Opening, Fault>
    ensures answer { told (viewed head_of result) reader.new ≡ load_head (loading (right_lengths (length rows.old) (length hours.old) (length marks.old) (length posts.old)) reader.old.at (ahead reader.old)) }
    ensures rows { places rows.new ≡ load_places (length rows.old) (loading (right_lengths (length rows.old) (length hours.old) (length marks.old) (length posts.old)) reader.old.at (ahead reader.old)) }
    ensures hours { hours.new ≡ replicate (length hours.old) H.Blank.blank }
    ensures marks { marks.new ≡ replicate (length marks.old) M.Blank.blank }
    ensures posts { posts.new ≡ replicate (length posts.old) P.Blank.blank }
    ensures input { reader.new.input.now ≡ reader.old.input.now }
    ensures stays { OnErr result (reader.new.at ≡ reader.old.at) }
    ensures faithful { Faithful day_text }
    ensures text { LoadsItsText }
{
    clear(rows);
    clear(hours);
    clear(marks);
    clear(posts);
    if rows.len() != 256 || hours.len() != 24 || marks.len() != 256 || posts.len() != 128 {
        return Err(Refusal::WrongLength.without_text());
    }
    let start = reader.at;
    // Not in a closure: of what one alters, the proof of its caller learns nothing.
    let opened = read_day(reader, rows);
    if opened.is_err() {
        undo(reader, start, rows);
    }
    opened
}
