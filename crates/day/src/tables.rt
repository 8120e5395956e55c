// The tables of a day, to be looked at.
ghost use Rattle.std.specs.Prelude.{◌≡◌};

use crate::days::Day;
use book::blocks::Blocks;
use book::rows::Row;
use clearing::marks::Mark;
use clearing::results::HourResult;
use posting::fills::Fill;

impl Day {
    pub fn rows(&self) -> &[Row; 256]
        ensures { result.now ≡ self.now.rows }
    {
        &self.rows
    }

    pub fn blocks(&self) -> &Blocks
        ensures { result.now ≡ self.now.opening.blocks }
    {
        &self.opening.blocks
    }

    pub fn hours(&self) -> &[HourResult; 24]
        ensures { result.now ≡ self.now.hours }
    {
        &self.hours
    }

    pub fn marks(&self) -> &[Mark; 256]
        ensures { result.now ≡ self.now.marks }
    {
        &self.marks
    }

    pub fn posts(&self) -> &[Fill; 128]
        ensures { result.now ≡ self.now.posts }
    {
        &self.posts
    }

    // How many places of the post list are used.
    pub fn posted(&self) -> usize
        ensures { result ≡ self.now.posted }
    {
        self.posted
    }
}
