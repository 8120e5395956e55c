// The calls that alter the order table. Each takes the lent rows and how many stamps are given, since the two belong to the
// day and not to the book.
ghost use Rattle.std.specs.Prelude.{◌≡◌, ◌+◌, length, Ok, OnErr};
ghost use Rattle.book.specs.Conditions.{decide, unless};
ghost use Rattle.book.specs.Entering.{write_refusals, withdraw_refusals, written, enter_answer, entered, change_answer, changed, withdraw_answer, withdrawn, of_table, in_table};
ghost use Rattle.book.specs.Views.{ticket_of, places};

use crate::entries::Entry;
use crate::ranges::{bad_member, bad_row, is_block};
use crate::rows::Row;
use crate::tables::{is_of, is_taken, other_blocks};
use crate::tickets::Ticket;
use faults::fault::{Fault, Refusal};

fn check_length(rows: &[Row]) -> Result<(), Fault>
    ensures { result ≡ of_table (length rows.now) (Ok tt) }
{
    if rows.len() != 256 {
        return Err(Refusal::WrongLength.without_text());
    }
    Ok(())
}

// Refused where the member has no order in the row.
fn check_owner(rows: &[Row], row: usize, member: u32) -> Result<(), Fault>
    ensures { result ≡ decide (withdraw_refusals (places rows.now) row member) tt }
{
    if !is_taken(rows, row) {
        return Err(Refusal::RowEmpty(row).without_text());
    }
    if !is_of(rows, row, member) {
        return Err(Refusal::OtherMember(row).without_text());
    }
    Ok(())
}

// Writes the order with the next stamp, if one is left and the order is no block beside 32 others.
#[tactic(auto, using(crate::proofs::Placed::placed_set), unfolding(crate::specs::Views::ticket_of))]
fn write_next(rows: &mut [Row], given: u32, ticket: &Ticket) -> Result<u32, Fault>
    requires { length rows.old ≡ 256 }
    ensures gives { result ≡ decide (write_refusals (places rows.old) given (ticket_of ticket.now)) (given + 1) }
    ensures leaves { places rows.new ≡ unless (write_refusals (places rows.old) given (ticket_of ticket.now)) (written (places rows.old) given (ticket_of ticket.now)) (places rows.old) }
    ensures kept { OnErr result (rows.new ≡ rows.old) }
{
    if is_block(ticket.product) && other_blocks(rows, ticket.row) >= 32 {
        return Err(Refusal::BlocksFull(ticket.row).without_text());
    }
    if given >= 60_000 {
        return Err(Refusal::StampsSpent.without_text());
    }
    let stamp = given + 1;
    rows[ticket.row] = Some(Entry {
        member: ticket.member,
        product: ticket.product,
        order: ticket.order,
        stamp,
    });
    Ok(stamp)
}

// Writes a new order into an empty row. Answers its stamp, the one after those given.
#[tactic(auto, unfolding(crate::specs::Views::ticket_of))]
pub fn enter(rows: &mut [Row], given: u32, ticket: &Ticket) -> Result<u32, Fault>
    ensures gives { result ≡ of_table (length rows.old) (enter_answer (places rows.old) given (ticket_of ticket.now)) }
    ensures leaves { places rows.new ≡ in_table (length rows.old) (entered (places rows.old) given (ticket_of ticket.now)) (places rows.old) }
    ensures kept { OnErr result (rows.new ≡ rows.old) }
{
    check_length(rows)?;
    if is_taken(rows, ticket.row) {
        return Err(Refusal::RowTaken(ticket.row).without_text());
    }
    write_next(rows, given, ticket)
}

// Writes an order over the member's own. Answers its stamp, the one after those given.
#[tactic(auto, unfolding(crate::specs::Views::ticket_of))]
pub fn change(rows: &mut [Row], given: u32, ticket: &Ticket) -> Result<u32, Fault>
    ensures gives { result ≡ of_table (length rows.old) (change_answer (places rows.old) given (ticket_of ticket.now)) }
    ensures leaves { places rows.new ≡ in_table (length rows.old) (changed (places rows.old) given (ticket_of ticket.now)) (places rows.old) }
    ensures kept { OnErr result (rows.new ≡ rows.old) }
{
    check_length(rows)?;
    check_owner(rows, ticket.row, ticket.member)?;
    write_next(rows, given, ticket)
}

// Empties the member's own row.
#[tactic(auto, using(crate::proofs::Placed::placed_set))]
pub fn withdraw(rows: &mut [Row], row: usize, member: u32) -> Result<(), Fault>
    ensures gives { result ≡ of_table (length rows.old) (withdraw_answer (places rows.old) row member) }
    ensures leaves { places rows.new ≡ in_table (length rows.old) (withdrawn (places rows.old) row member) (places rows.old) }
    ensures kept { OnErr result (rows.new ≡ rows.old) }
{
    check_length(rows)?;
    if bad_row(row) || bad_member(member) {
        return Err(Refusal::OutOfRange(0).without_text());
    }
    check_owner(rows, row, member)?;
    rows[row] = None;
    Ok(())
}
