// The calls of an open day that alter its orders.
ghost use Rattle.std.specs.Prelude.{◌≡◌, length, IfErr};
ghost use Rattle.book.specs.Views.{places};
ghost use Rattle.calls.specs.declared.calls.Call.TheVariants.{Enter, Change, Withdraw};
ghost use Rattle.calls.specs.Moves.{move_of};
ghost use Rattle.day.specs.Answers.{answer, left};
ghost use Rattle.day.specs.Views.{given_after, lent_to};
ghost use Rattle.phases.specs.Views.{open_day, said, handed};

use crate::states::Open;
use book::drafts::Draft;
use book::entering::withdraw;
use book::rows::Row;
use day::entering::{change_draft, enter_draft};
use faults::fault::Fault;

impl Open {
    // Keeps the stamp that was given. A refusal hands the day back, which a `?` would not.
    fn stamped(mut self, stamp: Result<u32, Fault>) -> Result<(Open, u32), (Open, Fault)>
        ensures said { said result ≡ stamp }
        ensures begun { (handed result).opening ≡ record { references = self.opening.references; blocks = self.opening.blocks; given = given_after stamp self.opening.given } }
        ensures kept { IfErr result (λ e. e.0 ≡ self) }
    {
        match stamp {
            Ok(stamp) => {
                self.opening.given = stamp;
                Ok((self, stamp))
            }
            Err(fault) => Err((self, fault)),
        }
    }

    // Enters an order into an empty row. Answers its stamp.
    pub fn enter(self, rows: &mut [Row], draft: &Draft) -> Result<(Open, u32), (Open, Fault)>
        ensures gives { said result ≡ lent_to (length rows.old) (answer (open_day self (places rows.old)) (move_of (Enter draft.now))) }
        ensures leaves { open_day (handed result) (places rows.new) ≡ left (open_day self (places rows.old)) (move_of (Enter draft.now)) (said result) }
        ensures kept { IfErr result (λ e. (e.0 ≡ self) × (rows.new ≡ rows.old)) }
    {
        let stamp = enter_draft(rows, self.opening.given, self.opening.blocks.len(), draft);
        self.stamped(stamp)
    }

    // Changes the member's own order. Answers its new stamp.
    pub fn change(self, rows: &mut [Row], draft: &Draft) -> Result<(Open, u32), (Open, Fault)>
        ensures gives { said result ≡ lent_to (length rows.old) (answer (open_day self (places rows.old)) (move_of (Change draft.now))) }
        ensures leaves { open_day (handed result) (places rows.new) ≡ left (open_day self (places rows.old)) (move_of (Change draft.now)) (said result) }
        ensures kept { IfErr result (λ e. (e.0 ≡ self) × (rows.new ≡ rows.old)) }
    {
        let renewed = change_draft(rows, self.opening.given, self.opening.blocks.len(), draft);
        self.stamped(renewed)
    }

    // Empties the member's own row.
    pub fn withdraw(
        self,
        rows: &mut [Row],
        row: usize,
        member: u32,
    ) -> Result<(Open, u32), (Open, Fault)>
        ensures gives { said result ≡ lent_to (length rows.old) (answer (open_day self (places rows.old)) (move_of (Withdraw row member))) }
        ensures leaves { open_day (handed result) (places rows.new) ≡ left (open_day self (places rows.old)) (move_of (Withdraw row member)) (said result) }
        ensures kept { IfErr result (λ e. (e.0 ≡ self) × (rows.new ≡ rows.old)) }
    {
        // A refusal hands the day back, which a `?` would not.
        match withdraw(rows, row, member) {
            Ok(()) => Ok((self, 0)),
            Err(fault) => Err((self, fault)),
        }
    }
}
