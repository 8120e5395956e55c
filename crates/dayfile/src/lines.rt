// An order line, read item by item.
ghost use Rattle.std.specs.Prelude.{◌≡◌, ◌≤◌, false, IfOk};
ghost use Rattle.faults.specs.Answers.{viewed};
ghost use Rattle.curves.specs.Points.{Point};
ghost use Rattle.curves.specs.Views.{quoted};
ghost use Rattle.book.specs.Drafted.{pairs_of, form_of, too_many, asked_of};
ghost use Rattle.text.specs.Format.{Faithful};
ghost use Rattle.text.specs.Tokens.{told, ahead};
ghost use Rattle.dayfile.specs.Lines.{point_text, pairs_text, form_text, order_text};

use crate::items::{Item, ReadItem, read_list};
use crate::kinds::{Kind, SideWord};
use book::drafts::{Draft, Quotes, Terms};
use curves::quotes::Quote;
use faults::fault::Fault;
use text::close::Close;
use text::reader::Reader;

impl Item for Quote {
    ghost Plain = { Point };

    ghost plain = { quoted };

    ghost form = { point_text };
}

impl ReadItem for Quote {
    #[tactic(auto, unfolding(crate::specs::Lines::point_text))]
    fn read(reader: &mut Reader, line: usize, end: Close) -> Result<Quote, Fault> {
        let tick = reader.number(line, 1, 300_000, Close::Space)?;
        let volume = reader.number(line, 1, 100_000, end)?;
        Ok(Quote { tick, volume })
    }
}

// A count, and as many pairs.
#[tactic(auto, unfolding(crate::specs::Lines::pairs_text, curves::specs::Views::quotes))]
fn read_quotes(reader: &mut Reader, line: usize) -> Result<Quotes, Fault>
    ensures told { told (viewed pairs_of result) reader.new ≡ pairs_text.read line reader.old.at (ahead reader.old) }
    ensures input { reader.new.input.now ≡ reader.old.input.now }
    ensures few { IfOk result (λ q. q.count ≤ 8) }
{
    let count = reader.number(line, 1, 8, Close::Space)?;
    let mut pairs = [Quote { tick: 0, volume: 0 }; 8];
    read_list(reader, line, &mut pairs[0..count as usize])?;
    Ok(Quotes {
        pairs,
        count: count as usize,
    })
}

// A form, and what follows it.
#[tactic(auto, unfolding(crate::specs::Lines::form_text))]
fn read_terms(reader: &mut Reader, line: usize) -> Result<Terms, Fault>
    ensures told { told (viewed form_of result) reader.new ≡ form_text.read line reader.old.at (ahead reader.old) }
    ensures input { reader.new.input.now ≡ reader.old.input.now }
    ensures few { IfOk result (λ t. too_many t ≡ false) }
{
    match reader.word::<Kind>(line, Close::Space)? {
        Kind::Market => Ok(Terms::Market(reader.number(line, 1, 100_000, Close::Line)?)),
        Kind::Step => Ok(Terms::Step(read_quotes(reader, line)?)),
        Kind::Linear => Ok(Terms::Linear(read_quotes(reader, line)?)),
    }
}

// The items of an order in the line that begins at `line`.
#[tactic(auto, using(crate::proofs::Described::faithful_order), unfolding(crate::specs::Lines::order_text, book::specs::Drafted::asked_of))]
pub fn read_order(reader: &mut Reader, line: usize) -> Result<Draft, Fault>
    ensures told { told (viewed asked_of result) reader.new ≡ order_text.read line reader.old.at (ahead reader.old) }
    ensures input { reader.new.input.now ≡ reader.old.input.now }
    ensures few { IfOk result (λ d. too_many d.terms ≡ false) }
    ensures faithful { Faithful order_text }
{
    let row = reader.number(line, 0, 255, Close::Space)?;
    let member = reader.number(line, 1, 999, Close::Space)?;
    let product = reader.number(line, 1, 38, Close::Space)?;
    let word = reader.word::<SideWord>(line, Close::Space)?;
    let terms = read_terms(reader, line)?;
    Ok(Draft {
        row: row as usize,
        member,
        product,
        side: word.side,
        terms,
    })
}
