// A load and any list of calls.
ghost use Rattle.std.specs.Prelude.{◌≡◌, List, length, ◌==◌};
ghost use Rattle.faults.specs.Answers.{viewed};
ghost use Rattle.calls.specs.Moves.{moves};
ghost use Rattle.dayfile.specs.Day.{day_text};
ghost use Rattle.day.specs.Views.{day_of};
ghost use Rattle.history.specs.Events.{Event};
ghost use Rattle.history.specs.Runs.{Played, IsTold, RanIf};

use calls::calls::Call;
use day::days::Day;
use faults::fault::{Fault, Refusal};
use text::reader::Reader;

// Makes the calls in turn, and writes the answer to each.
fn play(day: &mut Day, calls: &[Call], answers: &mut [Result<u32, Fault>])
    requires { length answers.old ≡ length calls.now }
    ensures { (h : List Event) → IsTold h (day_of day.old) → Played (day_of day.old).references (day_of day.old).sets h (moves calls.now) answers.new (day_of day.new) }
{
    // A `zip` with `iter_mut` would leave nothing known of the answers.
    for (i, call) in calls.iter().enumerate() {
        answers[i] = day.call(*call);
    }
}

// Opens the day that a text begins with, makes the calls in turn and writes the answer to each: the day that they lead to,
// or why the load is refused. As many answers as calls are lent, else nothing is done.
pub fn run(text: &[u8], calls: &[Call], answers: &mut [Result<u32, Fault>]) -> Result<Day, Fault>
    ensures { RanIf (length answers.old == length calls.now) (day_text.read 0 0 text.now) (moves calls.now) answers.old answers.new (viewed day_of result) }
{
    if answers.len() != calls.len() {
        return Err(Refusal::WrongLength.without_text());
    }
    let mut reader = Reader::new(text);
    let mut day = Day::load(&mut reader)?;
    play(&mut day, calls, answers);
    Ok(day)
}
