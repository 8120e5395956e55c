// A day opened from its text.
ghost use Rattle.std.specs.Prelude.{◌≡◌, length, replicate, OnErr, OnOk};
ghost use Rattle.faults.specs.Answers.{viewed};
ghost use Rattle.book.specs.Views.{places};
ghost use Rattle.clearing.specs.Results.{no_result};
ghost use Rattle.clearing.specs.declared.marks.Mark.TheVariants.{Kept};
ghost use Rattle.posting.specs.Posts.{no_fill};
ghost use Rattle.text.specs.Format.{Faithful};
ghost use Rattle.text.specs.Tokens.{told, ahead};
ghost use Rattle.dayfile.specs.Day.{day_text};
ghost use Rattle.dayfile.specs.Entered.{LoadsItsText};
ghost use Rattle.dayfile.specs.Loading.{right_lengths, loading, load_head, load_places};
ghost use Rattle.day.specs.States.{no_results, no_marks};
ghost use Rattle.phases.specs.Views.{open_head};

use crate::states::Open;
use book::rows::Row;
use clearing::marks::Mark;
use clearing::results::HourResult;
use dayfile::loading::load;
use faults::fault::Fault;
use posting::fills::Fill;
use text::reader::Reader;

impl Open {
    // Opens the day whose text begins at the reader's place, with its orders in the rows and nothing in the other tables.
    // A refused load leaves every place empty, and the reader where it was.
    #[tactic(auto, unfolding(day::specs::States::no_results, day::specs::States::no_marks))]
    pub fn load(
        reader: &mut Reader,
        rows: &mut [Row],
        hours: &mut [HourResult],
        marks: &mut [Mark],
        posts: &mut [Fill],
    ) -> Result<Open, Fault>
        ensures answer { told (viewed open_head result) reader.new ≡ load_head (loading (right_lengths (length rows.old) (length hours.old) (length marks.old) (length posts.old)) reader.old.at (ahead reader.old)) }
        ensures rows { places rows.new ≡ load_places (length rows.old) (loading (right_lengths (length rows.old) (length hours.old) (length marks.old) (length posts.old)) reader.old.at (ahead reader.old)) }
        ensures hours { hours.new ≡ replicate (length hours.old) no_result }
        ensures marks { marks.new ≡ replicate (length marks.old) Kept }
        ensures posts { posts.new ≡ replicate (length posts.old) no_fill }
        ensures blank { OnOk result ((hours.new ≡ no_results) × (marks.new ≡ no_marks)) }
        ensures input { reader.new.input.now ≡ reader.old.input.now }
        ensures stays { OnErr result (reader.new.at ≡ reader.old.at) }
        ensures faithful { Faithful day_text }
        ensures text { LoadsItsText }
    {
        let opening = load(reader, rows, hours, marks, posts)?;
        Ok(Open { opening })
    }
}
