// The fills of a post list: the places that are used.
ghost use Rattle.std.specs.Prelude.{◌≡◌, ◌≤◌, List, length};
ghost use Rattle.posting.specs.declared.fills.Fill.{Fill};
ghost use Rattle.posting.specs.Posts.{filled_in, posted_answer};

use crate::fills::Fill;
use crate::sums::sum_in;
use faults::fault::{Fault, Refusal};
use std::marker::Model;

#[derive(Drop)]
pub struct Posted<'a> {
    fills: &'a [Fill],
}

impl<'a> Model for Posted<'a> {
    ghost Value = { List Fill };

    ghost view = { λ p. p.fills.now };

    ghost invariant = { λ p. length p.fills.now ≤ 128 };
}

impl<'a> Posted<'a> {
    // The first `posted` places of a whole post list.
    pub fn new(posts: &'a [Fill], posted: usize) -> Result<Posted<'a>, Fault>
        ensures { result ≡ posted_answer posts.now posted }
    {
        if posts.len() != 128 {
            return Err(Refusal::WrongLength.without_text());
        }
        Ok(Posted {
            fills: &posts[..posted.min(128)],
        })
    }

    pub fn fills(&self) -> &[Fill]
        ensures is { result.now ≡ self.now }
        ensures few { length self.now ≤ 128 }
    {
        self.fills
    }

    // What the fills took from an hour, counted from 1.
    #[tactic(auto, using(crate::proofs::Filled::filled_sum))]
    pub fn filled_in(&self, hour: u8) -> u64
        ensures { result ≡ filled_in hour self.now }
    {
        sum_in(self.fills, hour)
    }
}
