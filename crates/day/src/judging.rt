// The refusals that a call meets by itself.
ghost use Rattle.std.specs.Prelude.{◌≡◌, ◌||◌, if◌then◌else◌, Ok as Fine, Err as Refused};
ghost use Rattle.faults.specs.Answers.{out_of_range};
ghost use Rattle.book.specs.Verdicts.{bad_row, bad_member};
ghost use Rattle.calls.specs.declared.calls.Call.TheVariants.{Enter, Change};
ghost use Rattle.calls.specs.Moves.{move_of};
ghost use Rattle.day.specs.Answers.{judged};

use book::admit::admit;
use book::drafts::Draft;
use book::ranges::{bad_member, bad_row};
use calls::calls::Call;
use faults::fault::{Fault, Refusal};
use posting::ranges::judge_post;

#[tactic(auto, unfolding(book::specs::Drafted::draft_verdict))]
fn judge_draft(draft: &Draft, blocks: usize) -> Result<(), Fault>
    ensures enter { result ≡ judged blocks (move_of (Enter draft.now)) }
    ensures change { result ≡ judged blocks (move_of (Change draft.now)) }
{
    admit(draft, blocks)?;
    Ok(())
}

fn judge_withdrawal(row: usize, member: u32) -> Result<(), Fault>
    ensures { result ≡ (if bad_row row || bad_member member then Refused out_of_range else Fine tt) }
{
    if bad_row(row) || bad_member(member) {
        return Err(Refusal::OutOfRange(0).without_text());
    }
    Ok(())
}

// The first refusal that the call alone decides, in a day of so many blocks.
pub fn judge(call: Call, blocks: usize) -> Result<(), Fault>
    ensures { result ≡ judged blocks (move_of call) }
{
    match call {
        Call::Enter(draft) | Call::Change(draft) => judge_draft(&draft, blocks),
        Call::Withdraw(row, member) => judge_withdrawal(row, member),
        Call::Post(order) => judge_post(&order),
        Call::Fix | Call::Recall | Call::Confirm | Call::Finish => Ok(()),
    }
}
