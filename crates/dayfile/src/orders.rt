// The orders of a day, each entered as its line is read.
ghost use Rattle.std.specs.Prelude.{◌≡◌, ◌<◌, false, length, OnOk};
ghost use Rattle.book.specs.Drafted.{too_many, asked_of};
ghost use Rattle.book.specs.Entering.{written};
ghost use Rattle.book.specs.Views.{places};
ghost use Rattle.text.specs.Staged.{Ruled, leaving, staged_read};
ghost use Rattle.text.specs.Tokens.{filled, ahead};
ghost use Rattle.dayfile.specs.Day.{empty_places, empty_book, booked, line_rule, order_line, orders_text};
ghost use Rattle.dayfile.specs.Loading.{book_of, book_told};

use crate::lines::read_order;
use crate::sections::read_count;
use book::admit::admit;
use book::drafts::Draft;
use book::entering::enter;
use book::rows::Row;
use faults::fault::Fault;
use text::reader::Reader;

// Enters the order of a line that was read.
fn enter_order(
    rows: &mut [Row],
    given: u32,
    draft: &Draft,
    blocks: usize,
    line: usize,
) -> Result<(), Fault>
    requires whole { length rows.old ≡ 256 }
    requires few { too_many draft.now.terms ≡ false }
    ensures rule { Ruled (line_rule blocks (book_of (places rows.old) given) (asked_of draft.now)) line result }
    ensures leaves { OnOk result (places rows.new ≡ written (places rows.old) given (asked_of draft.now)) }
{
    let ticket = admit(draft, blocks).map_err(|why| why.refusal.in_line(line))?;
    enter(rows, given, &ticket).map_err(|why| why.refusal.in_line(line))?;
    Ok(())
}

// As many order lines as there are orders.
fn read_lines(reader: &mut Reader, rows: &mut [Row], n: u32, blocks: usize) -> Result<(), Fault>
    requires { length rows.old ≡ 256 }
    ensures told { filled result (book_of (places rows.new) n) reader.new ≡ leaving booked (book_of (places rows.old) 0) (staged_read (order_line blocks) booked (book_of (places rows.old) 0) n 0 reader.old.at (ahead reader.old)) }
    ensures input { reader.new.input.now ≡ reader.old.input.now }
{
    for given in 0..n {
        let line = reader.at;
        let draft = read_order(reader, line)?;
        enter_order(rows, given, &draft, blocks, line)?;
    }
    Ok(())
}

// The orders, into an empty table; how many there are.
#[tactic(auto, unfolding(crate::specs::Day::orders_text))]
pub(crate) fn read_orders(
    reader: &mut Reader,
    rows: &mut [Row],
    blocks: usize,
) -> Result<u32, Fault>
    requires whole { length rows.old ≡ 256 }
    requires empty { places rows.old ≡ empty_places }
    ensures told { book_told result (places rows.new) reader.new ≡ leaving booked empty_book ((orders_text blocks).read 0 reader.old.at (ahead reader.old)) }
    ensures input { reader.new.input.now ≡ reader.old.input.now }
{
    let n = read_count(reader, b"orders", 0, 256)?;
    read_lines(reader, rows, n, blocks)?;
    Ok(n)
}
