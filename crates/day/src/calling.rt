// Any call on a day in any phase.
ghost use Rattle.std.specs.Prelude.{◌≡◌, length, OnErr, Err as Refused};
ghost use Rattle.book.specs.Views.{sets_of};
ghost use Rattle.calls.specs.declared.calls.Call.TheVariants.{Enter, Change, Withdraw, Fix, Recall, Confirm, Post, Finish};
ghost use Rattle.calls.specs.Moves.{move_of};
ghost use Rattle.day.specs.declared.phases.Phase.TheVariants.{Open as InOpen, Fixed as InFixed, Post as InPost};
ghost use Rattle.day.specs.Answers.{judged, out_of_phase, answer, left};
ghost use Rattle.day.specs.Views.{day_of};

use crate::days::Day;
use crate::entering::{change_draft, enter_draft};
use crate::judging::judge;
use crate::phases::Phase;
use book::blanks::clear;
use book::drafts::Draft;
use book::entering::withdraw;
use calls::calls::Call;
use calls::posts::PostOrder;
use clearing::fixing::fix;
use faults::fault::{Fault, Refusal};
use posting::posting::post;

impl Day {
    // Each call promises what `call` does, in the words of one definition. `enter` and `change` differ in the call that each
    // makes; one function over that call would be longer than both.
    fn enter(&mut self, draft: &Draft) -> Result<u32, Fault>
        requires { self.old.phase ≡ InOpen }
        ensures gives { result ≡ answer (day_of self.old) (move_of (Enter draft.now)) }
        ensures leaves { day_of self.new ≡ left (day_of self.old) (move_of (Enter draft.now)) result }
        ensures kept { OnErr result (self.new ≡ self.old) }
    {
        let stamp = enter_draft(
            &mut self.rows,
            self.opening.given,
            self.opening.blocks.len(),
            draft,
        )?;
        self.opening.given = stamp;
        Ok(stamp)
    }

    fn change(&mut self, draft: &Draft) -> Result<u32, Fault>
        requires { self.old.phase ≡ InOpen }
        ensures gives { result ≡ answer (day_of self.old) (move_of (Change draft.now)) }
        ensures leaves { day_of self.new ≡ left (day_of self.old) (move_of (Change draft.now)) result }
        ensures kept { OnErr result (self.new ≡ self.old) }
    {
        let renewed = change_draft(
            &mut self.rows,
            self.opening.given,
            self.opening.blocks.len(),
            draft,
        )?;
        self.opening.given = renewed;
        Ok(renewed)
    }

    fn withdraw(&mut self, row: usize, member: u32) -> Result<u32, Fault>
        requires { self.old.phase ≡ InOpen }
        ensures gives { result ≡ answer (day_of self.old) (move_of (Withdraw row member)) }
        ensures leaves { day_of self.new ≡ left (day_of self.old) (move_of (Withdraw row member)) result }
        ensures kept { OnErr result (self.new ≡ self.old) }
    {
        withdraw(&mut self.rows, row, member)?;
        Ok(0)
    }

    #[tactic(auto, unfolding(clearing::specs::Clearing::ticks, dayfile::specs::Views::tick_values))]
    fn fix(&mut self) -> Result<u32, Fault>
        requires { self.old.phase ≡ InOpen }
        ensures gives { result ≡ answer (day_of self.old) (move_of Fix) }
        ensures leaves { day_of self.new ≡ left (day_of self.old) (move_of Fix) result }
        ensures kept { OnErr result (self.new ≡ self.old) }
    {
        let rounds = fix(
            &self.rows,
            &self.opening.blocks,
            &self.opening.references,
            &mut self.hours,
            &mut self.marks,
        )?;
        self.phase = Phase::Fixed;
        Ok(rounds)
    }

    #[tactic(auto, unfolding(crate::specs::States::no_results, crate::specs::States::no_marks))]
    fn recall(&mut self) -> Result<u32, Fault>
        requires { self.old.phase ≡ InFixed }
        ensures gives { result ≡ answer (day_of self.old) (move_of Recall) }
        ensures leaves { day_of self.new ≡ left (day_of self.old) (move_of Recall) result }
        ensures kept { OnErr result (self.new ≡ self.old) }
    {
        clear(&mut self.hours);
        clear(&mut self.marks);
        self.phase = Phase::Open;
        Ok(0)
    }

    fn confirm(&mut self) -> Result<u32, Fault>
        requires { self.old.phase ≡ InFixed }
        ensures gives { result ≡ answer (day_of self.old) (move_of Confirm) }
        ensures leaves { day_of self.new ≡ left (day_of self.old) (move_of Confirm) result }
        ensures kept { OnErr result (self.new ≡ self.old) }
    {
        self.phase = Phase::Post;
        Ok(0)
    }

    #[tactic(auto, unfolding(posting::specs::Posts::post_decided))]
    fn post(&mut self, order: &PostOrder) -> Result<u32, Fault>
        requires { self.old.phase ≡ InPost }
        ensures gives { result ≡ answer (day_of self.old) (move_of (Post order.now)) }
        ensures leaves { day_of self.new ≡ left (day_of self.old) (move_of (Post order.now)) result }
        ensures kept { OnErr result (self.new ≡ self.old) }
    {
        let fill = post(&self.hours, &mut self.posts, self.posted, order)?;
        self.posted += 1;
        Ok(fill)
    }

    fn finish(&mut self) -> Result<u32, Fault>
        requires { self.old.phase ≡ InPost }
        ensures gives { result ≡ answer (day_of self.old) (move_of Finish) }
        ensures leaves { day_of self.new ≡ left (day_of self.old) (move_of Finish) result }
        ensures kept { OnErr result (self.new ≡ self.old) }
    {
        self.phase = Phase::Final;
        Ok(0)
    }

    // A phase that does not have the call refuses it: what the call alone decides comes before the phase.
    fn out_of_phase(&self, call: Call) -> Result<u32, Fault>
        ensures { result ≡ Refused (out_of_phase (judged (length (sets_of self.now.opening.blocks)) (move_of call))) }
    {
        judge(call, self.opening.blocks.len())?;
        Err(Refusal::WrongPhase.without_text())
    }

    // Makes a call. Answers the stamp, the rounds, the fill or 0; a refused call leaves the day as it was.
    pub fn call(&mut self, call: Call) -> Result<u32, Fault>
        ensures gives { result ≡ answer (day_of self.old) (move_of call) }
        ensures leaves { day_of self.new ≡ left (day_of self.old) (move_of call) result }
        ensures kept { OnErr result (self.new ≡ self.old) }
    {
        // Every pair is named, so that a new call or phase cannot pass unseen.
        match (self.phase, call) {
            (Phase::Open, Call::Enter(draft)) => self.enter(&draft),
            (Phase::Open, Call::Change(draft)) => self.change(&draft),
            (Phase::Open, Call::Withdraw(row, member)) => self.withdraw(row, member),
            (Phase::Open, Call::Fix) => self.fix(),
            (Phase::Fixed, Call::Recall) => self.recall(),
            (Phase::Fixed, Call::Confirm) => self.confirm(),
            (Phase::Post, Call::Post(order)) => self.post(&order),
            (Phase::Post, Call::Finish) => self.finish(),
            (Phase::Open, Call::Recall | Call::Confirm | Call::Post(_) | Call::Finish) => {
                self.out_of_phase(call)
            }
            (
                Phase::Fixed,
                Call::Enter(_)
                | Call::Change(_)
                | Call::Withdraw(_, _)
                | Call::Fix
                | Call::Post(_)
                | Call::Finish,
            ) => self.out_of_phase(call),
            (
                Phase::Post,
                Call::Enter(_)
                | Call::Change(_)
                | Call::Withdraw(_, _)
                | Call::Fix
                | Call::Recall
                | Call::Confirm,
            ) => self.out_of_phase(call),
            (
                Phase::Final,
                Call::Enter(_)
                | Call::Change(_)
                | Call::Withdraw(_, _)
                | Call::Fix
                | Call::Recall
                | Call::Confirm
                | Call::Post(_)
                | Call::Finish,
            ) => self.out_of_phase(call),
        }
    }
}
