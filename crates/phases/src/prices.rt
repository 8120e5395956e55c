// Fixing a day's prices, and what settles them: recalled, the day is open again; confirmed, it goes on to post-trading.
ghost use Rattle.std.specs.Prelude.{◌≡◌, false, List, length, IfOk, Ok as Granted, MatchResult, OnOk};
ghost use Rattle.book.specs.Bids.{Place};
ghost use Rattle.book.specs.Views.{places, sets_of};
ghost use Rattle.clearing.specs.Clearing.{ticks};
ghost use Rattle.calls.specs.declared.calls.Call.TheVariants.{Fix, Recall, Confirm};
ghost use Rattle.calls.specs.Moves.{move_of};
ghost use Rattle.clearing.specs.Fixing.{right_tables, BlocksCleared, HoursPriced};
ghost use Rattle.clearing.specs.declared.marks.Mark.{Mark as MarkOf};
ghost use Rattle.clearing.specs.declared.results.HourResult.{HourResult as ResultOf};
ghost use Rattle.posting.specs.declared.fills.Fill.{Fill as FillOf};
ghost use Rattle.day.specs.Answers.{answer, left};
ghost use Rattle.day.specs.States.{no_results, no_marks};
ghost use Rattle.phases.specs.Views.{open_day, fixed_day, post_day, said, lent_right, right_prices};

use crate::states::{Fixed, Open, Post};
use book::blanks::clear;
use book::rows::Row;
use clearing::fixing::fix;
use clearing::marks::Mark;
use clearing::results::HourResult;
use faults::fault::{Fault, Refusal};

impl Open {
    // Clears the day's orders into results and marks. Answers the number of rounds.
    #[tactic(auto, unfolding(clearing::specs::Clearing::ticks, dayfile::specs::Views::tick_values))]
    pub fn fix(
        self,
        rows: &[Row],
        hours: &mut [HourResult],
        marks: &mut [Mark],
    ) -> Result<(Fixed, u32), (Open, Fault)>
        ensures gives { said result ≡ lent_right (right_tables (length rows.now) (length hours.old) (length marks.old)) (answer (open_day self (places rows.now)) (move_of Fix)) }
        ensures leaves { IfOk result (λ p. fixed_day p.0 (places rows.now) hours.new marks.new ≡ left (open_day self (places rows.now)) (move_of Fix) (Granted p.1)) }
        ensures kept { MatchResult result (λ p. p.0.opening ≡ self.opening) (λ e. (e.0 ≡ self) × (hours.new ≡ hours.old) × (marks.new ≡ marks.old)) }
        ensures unsettled { IfOk result (λ p. p.0.settled ≡ false) }
        ensures cleared { IfOk result (λ p. BlocksCleared (places rows.now) (sets_of self.opening.blocks) (ticks self.opening.references) p.1 hours.new marks.new) }
        ensures priced { IfOk result (λ p. HoursPriced (places rows.now) (sets_of self.opening.blocks) (ticks self.opening.references) p.1 hours.new marks.new) }
    {
        // A refusal hands the day back, which a `?` would not.
        match fix(
            rows,
            &self.opening.blocks,
            &self.opening.references,
            hours,
            marks,
        ) {
            Ok(rounds) => {
                let fixed = Fixed {
                    opening: self.opening,
                    settled: false,
                };
                Ok((fixed, rounds))
            }
            Err(fault) => Err((self, fault)),
        }
    }
}

impl Fixed {
    // Opens the day again, without results and marks.
    #[tactic(auto, unfolding(day::specs::States::no_results, day::specs::States::no_marks))]
    pub fn recall(
        mut self,
        hours: &mut [HourResult],
        marks: &mut [Mark],
    ) -> Result<(Open, u32), (Fixed, Fault)>
        ensures gives { (ps : List Place) → said result ≡ lent_right (right_prices (length hours.old) (length marks.old)) (answer (fixed_day self ps hours.old marks.old) (move_of Recall)) }
        ensures leaves { IfOk result (λ p. (ps : List Place) → open_day p.0 ps ≡ left (fixed_day self ps hours.old marks.old) (move_of Recall) (Granted p.1)) }
        ensures kept { MatchResult result (λ p. p.0.opening ≡ self.opening) (λ e. (e.0 ≡ self) × (hours.new ≡ hours.old) × (marks.new ≡ marks.old)) }
        ensures value { said result ≡ lent_right (right_prices (length hours.old) (length marks.old)) (Granted 0) }
        ensures zeroed { OnOk result ((hours.new ≡ no_results) × (marks.new ≡ no_marks)) }
    {
        if hours.len() != 24 || marks.len() != 256 {
            return Err((self, Refusal::WrongLength.without_text()));
        }
        clear(hours);
        clear(marks);
        self.settled = true;
        let open = Open {
            opening: self.opening,
        };
        Ok((open, 0))
    }

    // Makes the prices final, and starts post-trading.
    pub fn confirm(mut self) -> (Post, u32)
        ensures gives { (ps : List Place) (rs : List ResultOf) (ms : List MarkOf) → Granted result.1 ≡ answer (fixed_day self ps rs ms) (move_of Confirm) }
        ensures leaves { (ps : List Place) (rs : List ResultOf) (ms : List MarkOf) (table : List FillOf) → post_day result.0 ps rs ms table ≡ left (fixed_day self ps rs ms) (move_of Confirm) (Granted result.1) }
        ensures value { result.1 ≡ 0 }
        ensures kept { result.0.opening ≡ self.opening }
        ensures posted { result.0.posted ≡ 0 }
    {
        self.settled = true;
        let post = Post {
            opening: self.opening,
            posted: 0,
        };
        (post, 0)
    }
}
