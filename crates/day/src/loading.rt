// A new day from its text.
ghost use Rattle.std.specs.Prelude.{◌≡◌, OnErr};
ghost use Rattle.faults.specs.Answers.{viewed};
ghost use Rattle.text.specs.Format.{onward, got};
ghost use Rattle.text.specs.Tokens.{told, ahead};
ghost use Rattle.dayfile.specs.Day.{day_text};
ghost use Rattle.day.specs.Views.{day_of, opened_day};

use crate::days::Day;
use crate::phases::Phase;
use book::blanks::Blank;
use clearing::marks::Mark;
use clearing::results::HourResult;
use dayfile::loading::load;
use faults::fault::Fault;
use posting::fills::Fill;
use text::reader::Reader;

impl Day {
    // Opens the day whose text begins at the reader's place; the reader then stands where it ends. A refused load opens no
    // day, and leaves the reader where it was.
    pub fn load(reader: &mut Reader) -> Result<Day, Fault>
        ensures told { told (viewed day_of result) reader.new ≡ onward (day_text.read 0 reader.old.at (ahead reader.old)) (λ d q cs. got (opened_day d) q cs) }
        ensures input { reader.new.input.now ≡ reader.old.input.now }
        ensures stays { OnErr result (reader.new.at ≡ reader.old.at) }
    {
        let mut rows = [None; 256];
        let mut hours = [HourResult::blank(); 24];
        let mut marks = [Mark::Kept; 256];
        let mut posts = [Fill::blank(); 128];
        let opening = load(reader, &mut rows, &mut hours, &mut marks, &mut posts)?;
        Ok(Day {
            phase: Phase::Open,
            opening,
            rows,
            hours,
            marks,
            posts,
            posted: 0,
        })
    }
}
