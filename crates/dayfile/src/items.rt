// Items that follow one another up to the end of a line.
ghost use Rattle.std.specs.Prelude.{◌≡◌, ℕ, length, map};
ghost use Rattle.faults.specs.Answers.{viewed};
ghost use Rattle.text.specs.Closing.{close_byte};
ghost use Rattle.text.specs.Format.{Format};
ghost use Rattle.text.specs.Pages.{printed};
ghost use Rattle.text.specs.Staged.{many};
ghost use Rattle.text.specs.Tokens.{told, filled, ahead};
ghost use Rattle.dayfile.specs.Lines.{closing};

use crate::pages::DayPage;
use faults::fault::Fault;
use text::close::Close;
use text::reader::Reader;

// What stands in a line among others of its kind.
pub(crate) trait Item: Copy {
    // The plain value behind it.
    ghost Plain: { Type 0 };

    ghost plain: { Self → Plain };

    // It and the byte after it.
    ghost form: { ℕ → Format Plain };
}

pub(crate) trait ReadItem: Item {
    fn read(reader: &mut Reader, line: usize, end: Close) -> Result<Self, Fault>
        ensures told { told (viewed Self.plain result) reader.new ≡ (Self.form (close_byte end)).read line reader.old.at (ahead reader.old) }
        ensures input { reader.new.input.now ≡ reader.old.input.now };
}

pub(crate) trait PutItem: Item {
    fn put(&self, page: &mut DayPage, end: Close)
        ensures { page.new ≡ printed 40000 page.old ((Self.form (close_byte end)).text (Self.plain self.now)) };
}

// What ends an item that so many more follow in its line.
fn end_before(more: usize) -> Close
    ensures { close_byte result ≡ closing more }
{
    if more == 0 { Close::Line } else { Close::Space }
}

// Items up to the line's end, one for each place of `list`.
pub(crate) fn read_list<T: ReadItem>(
    reader: &mut Reader,
    line: usize,
    list: &mut [T],
) -> Result<(), Fault>
    ensures told { filled result (map T.plain list.new) reader.new ≡ (many (λ k. T.form (closing k)) (length list.old)).read line reader.old.at (ahead reader.old) }
    ensures input { reader.new.input.now ≡ reader.old.input.now }
{
    let n = list.len();
    for (i, item) in list.iter_mut().enumerate() {
        *item = T::read(reader, line, end_before(n - (i + 1)))?;
    }
    Ok(())
}

// The items up to the line's end.
pub(crate) fn put_list<T: PutItem>(page: &mut DayPage, list: &[T])
    ensures { page.new ≡ printed 40000 page.old ((many (λ k. T.form (closing k)) (length (map T.plain list.now))).text (map T.plain list.now)) }
{
    for (i, item) in list.iter().enumerate() {
        item.put(page, end_before(list.len() - (i + 1)));
    }
}
