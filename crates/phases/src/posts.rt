// The calls of post-trading.
ghost use Rattle.std.specs.Prelude.{◌≡◌, ◌+◌, List, length, Ok as Granted, MatchResult};
ghost use Rattle.book.specs.Bids.{Place};
ghost use Rattle.calls.specs.declared.calls.Call.TheVariants.{Post as Posted, Finish};
ghost use Rattle.calls.specs.Moves.{move_of};
ghost use Rattle.clearing.specs.declared.marks.Mark.{Mark as MarkOf};
ghost use Rattle.clearing.specs.declared.results.HourResult.{HourResult as ResultOf};
ghost use Rattle.posting.specs.declared.fills.Fill.{Fill as FillOf};
ghost use Rattle.posting.specs.Posts.{right_posts, post_answer, posts_after};
ghost use Rattle.day.specs.Answers.{answer, left};
ghost use Rattle.phases.specs.Views.{post_day, final_day, said, handed, lent_right};

use crate::states::{Final, Post};
use calls::posts::PostOrder;
use clearing::results::HourResult;
use faults::fault::Fault;
use posting::fills::Fill;
use posting::posting::post;

impl Post {
    // Takes from what is left of an hour's surplus. Answers the fill.
    #[tactic(auto, unfolding(posting::specs::Posts::post_decided))]
    pub fn post(
        mut self,
        hours: &[HourResult],
        posts: &mut [Fill],
        order: &PostOrder,
    ) -> Result<(Post, u32), (Post, Fault)>
        ensures gives { (ps : List Place) (ms : List MarkOf) → said result ≡ lent_right (right_posts (length hours.now) (length posts.old)) (answer (post_day self ps hours.now ms posts.old) (move_of (Posted order.now))) }
        ensures leaves { (ps : List Place) (ms : List MarkOf) → post_day (handed result) ps hours.now ms posts.new ≡ left (post_day self ps hours.now ms posts.old) (move_of (Posted order.now)) (said result) }
        ensures value { said result ≡ post_answer hours.now posts.old self.posted order.now }
        ensures listed { posts.new ≡ posts_after (said result) order.now self.posted posts.old }
        ensures kept { MatchResult result (λ p. (p.0.opening ≡ self.opening) × (p.0.posted ≡ self.posted + 1)) (λ e. (e.0 ≡ self) × (posts.new ≡ posts.old)) }
    {
        // A refusal hands the day back, which a `?` would not.
        match post(hours, posts, self.posted, order) {
            Ok(fill) => {
                self.posted += 1;
                Ok((self, fill))
            }
            Err(fault) => Err((self, fault)),
        }
    }

    // Ends post-trading.
    pub fn finish(self) -> (Final, u32)
        ensures gives { (ps : List Place) (rs : List ResultOf) (ms : List MarkOf) (table : List FillOf) → Granted result.1 ≡ answer (post_day self ps rs ms table) (move_of Finish) }
        ensures leaves { (ps : List Place) (rs : List ResultOf) (ms : List MarkOf) (table : List FillOf) → final_day result.0 ps rs ms table ≡ left (post_day self ps rs ms table) (move_of Finish) (Granted result.1) }
        ensures value { result.1 ≡ 0 }
        ensures kept { (result.0.opening ≡ self.opening) × (result.0.posted ≡ self.posted) }
    {
        let done = Final {
            opening: self.opening,
            posted: self.posted,
        };
        (done, 0)
    }
}
