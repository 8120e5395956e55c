// Orders by their drafts, into the order table. Two functions of a few lines: one over the call that each makes would be longer.
ghost use Rattle.std.specs.Prelude.{◌≡◌, length, OnErr};
ghost use Rattle.book.specs.Drafted.{asked_of};
ghost use Rattle.book.specs.Views.{places};
ghost use Rattle.day.specs.Views.{enter_draft, change_draft, places_after, lent_to};

use book::admit::admit;
use book::drafts::Draft;
use book::entering::{change, enter};
use book::rows::Row;
use faults::fault::{Fault, Refusal};

// Enters an order into an empty row, in a day of so many blocks. Answers its stamp.
#[tactic(auto, unfolding(book::specs::Drafted::draft_verdict))]
pub fn enter_draft(rows: &mut [Row], given: u32, blocks: usize, draft: &Draft) -> Result<u32, Fault>
    ensures gives { result ≡ lent_to (length rows.old) (enter_draft blocks (places rows.old) given draft.now) }
    ensures leaves { places rows.new ≡ places_after (asked_of draft.now) result (places rows.old) }
    ensures kept { OnErr result (rows.new ≡ rows.old) }
{
    if rows.len() != 256 {
        return Err(Refusal::WrongLength.without_text());
    }
    let ticket = admit(draft, blocks)?;
    enter(rows, given, &ticket)
}

// Changes the member's own order. Answers its new stamp.
#[tactic(auto, unfolding(book::specs::Drafted::draft_verdict))]
pub fn change_draft(
    rows: &mut [Row],
    given: u32,
    blocks: usize,
    draft: &Draft,
) -> Result<u32, Fault>
    ensures gives { result ≡ lent_to (length rows.old) (change_draft blocks (places rows.old) given draft.now) }
    ensures leaves { places rows.new ≡ places_after (asked_of draft.now) result (places rows.old) }
    ensures kept { OnErr result (rows.new ≡ rows.old) }
{
    if rows.len() != 256 {
        return Err(Refusal::WrongLength.without_text());
    }
    let ticket = admit(draft, blocks)?;
    change(rows, given, &ticket)
}
