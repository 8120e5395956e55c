// The text of a day, written into a lent output.
ghost use Rattle.std.specs.Prelude.{◌≡◌, length};
ghost use Rattle.book.specs.Views.{places, sets_of};
ghost use Rattle.text.specs.Pages.{printed};
ghost use Rattle.dayfile.specs.Sequence.{Sequenced};
ghost use Rattle.dayfile.specs.Entered.{Proper, Returns};
ghost use Rattle.dayfile.specs.Written.{day_in, bytes_of, write_answer, output_after};

use crate::opening::Opening;
use crate::pages::DayPage;
use crate::putting::{put_blocks, put_references, put_table};
use book::rows::Row;
use faults::fault::{Fault, Refusal};

fn print(opening: &Opening, rows: &[Row]) -> DayPage
    requires { length rows.now ≡ 256 }
    ensures is { result ≡ bytes_of opening.now rows.now }
    ensures hours { length opening.now.references ≡ 24 }
{
    let mut page = DayPage::new();
    put_references(&mut page, &opening.references);
    put_blocks(&mut page, &opening.blocks);
    put_table(&mut page, rows);
    page
}

// Writes a day's text at the front of the output and answers its length. The text is made on a page of its own first,
// so that an output that is too short stays as it was. The orders stand in stamp sequence (`ordered`), and the text of a
// table that a day can hold is read back as the same day (`returns`).
pub fn write(opening: &Opening, rows: &[Row], out: &mut [u8]) -> Result<usize, Fault>
    ensures gives { result ≡ write_answer (length rows.now) (bytes_of opening.now rows.now) out.old }
    ensures leaves { out.new ≡ output_after (length rows.now) (bytes_of opening.now rows.now) out.old }
    ensures ordered { Sequenced (places rows.now) }
    ensures returns { Proper (length (sets_of opening.now.blocks)) (places rows.now) → Returns (day_in opening.now rows.now) }
{
    if rows.len() != 256 {
        return Err(Refusal::WrongLength.without_text());
    }
    let page = print(opening, rows);
    let text = page.text();
    if out.len() < text.len() {
        return Err(Refusal::WrongLength.without_text());
    }
    out[..text.len()].copy_from_slice(text);
    Ok(text.len())
}
