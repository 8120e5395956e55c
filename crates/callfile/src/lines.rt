// A call line, read item by item.
ghost use Rattle.std.specs.Prelude.{◌≡◌};
ghost use Rattle.faults.specs.Answers.{viewed};
ghost use Rattle.text.specs.Closing.{close_byte};
ghost use Rattle.text.specs.Format.{Faithful};
ghost use Rattle.text.specs.Tokens.{told, ahead};
ghost use Rattle.calls.specs.Moves.{move_of};
ghost use Rattle.callfile.specs.Calls.{end_of, name_text, withdraw_text, post_text, body, call_text, call_line};

use crate::names::{CallName, PortionWord};
use calls::calls::Call;
use calls::posts::PostOrder;
use dayfile::kinds::SideWord;
use dayfile::lines::read_order;
use faults::fault::Fault;
use text::close::Close;
use text::reader::Reader;

// What ends the name of a call: a space where items follow it.
fn end_of(name: CallName) -> Close
    ensures { close_byte result ≡ end_of name }
{
    match name {
        CallName::Enter | CallName::Change | CallName::Withdraw | CallName::Post => Close::Space,
        CallName::Fix | CallName::Recall | CallName::Confirm | CallName::Finish => Close::Line,
    }
}

// The name of a call, and what ends it.
fn read_name(reader: &mut Reader, line: usize) -> Result<CallName, Fault>
    ensures told { told result reader.new ≡ name_text.read line reader.old.at (ahead reader.old) }
    ensures input { reader.new.input.now ≡ reader.old.input.now }
{
    let name = reader.name::<CallName>(line)?;
    reader.close(line, end_of(name))?;
    Ok(name)
}

// A row and a member.
fn read_withdrawal(reader: &mut Reader, line: usize) -> Result<Call, Fault>
    ensures told { told (viewed move_of result) reader.new ≡ withdraw_text.read line reader.old.at (ahead reader.old) }
    ensures input { reader.new.input.now ≡ reader.old.input.now }
{
    let row = reader.number(line, 0, 255, Close::Space)?;
    let member = reader.number(line, 1, 999, Close::Line)?;
    Ok(Call::Withdraw(row as usize, member))
}

// The items of an order of post-trading.
fn read_post(reader: &mut Reader, line: usize) -> Result<PostOrder, Fault>
    ensures told { told result reader.new ≡ post_text.read line reader.old.at (ahead reader.old) }
    ensures input { reader.new.input.now ≡ reader.old.input.now }
{
    let member = reader.number(line, 1, 999, Close::Space)?;
    let hour = reader.number(line, 1, 24, Close::Space)?;
    let word = reader.word::<SideWord>(line, Close::Space)?;
    let volume = reader.number(line, 1, 100_000, Close::Space)?;
    let size = reader.word::<PortionWord>(line, Close::Line)?;
    Ok(PostOrder {
        member,
        hour: hour as u8,
        side: word.side,
        volume,
        portion: size.portion,
    })
}

// What follows the name of a call.
fn read_body(reader: &mut Reader, line: usize, name: CallName) -> Result<Call, Fault>
    ensures told { told (viewed move_of result) reader.new ≡ (body name).read line reader.old.at (ahead reader.old) }
    ensures input { reader.new.input.now ≡ reader.old.input.now }
{
    match name {
        CallName::Enter => Ok(Call::Enter(read_order(reader, line)?)),
        CallName::Change => Ok(Call::Change(read_order(reader, line)?)),
        CallName::Withdraw => read_withdrawal(reader, line),
        CallName::Fix => Ok(Call::Fix),
        CallName::Recall => Ok(Call::Recall),
        CallName::Confirm => Ok(Call::Confirm),
        CallName::Post => Ok(Call::Post(read_post(reader, line)?)),
        CallName::Finish => Ok(Call::Finish),
    }
}

// A call line, which begins where the reader stands.
pub fn read_call(reader: &mut Reader) -> Result<Call, Fault>
    ensures told { told (viewed move_of result) reader.new ≡ call_line.read 0 reader.old.at (ahead reader.old) }
    ensures input { reader.new.input.now ≡ reader.old.input.now }
    ensures faithful { Faithful call_text }
{
    let line = reader.at;
    let name = read_name(reader, line)?;
    read_body(reader, line, name)
}
