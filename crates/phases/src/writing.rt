// The text of a day, in any phase. Each phase is a type of its own with plain fields, so each says where its own lie.
ghost use Rattle.std.specs.Prelude.{◌≡◌, length};
ghost use Rattle.book.specs.Views.{places, sets_of};
ghost use Rattle.dayfile.specs.Entered.{Proper, Returns};
ghost use Rattle.dayfile.specs.Sequence.{Sequenced};
ghost use Rattle.dayfile.specs.Written.{day_in, bytes_of, write_answer, output_after};
ghost use Rattle.dayfile.specs.declared.opening.Opening.{Opening as OpeningOf};

use crate::states::{Final, Fixed, Open, Post};
use book::rows::Row;
use dayfile::opening::Opening;
use dayfile::writing::write;
use faults::fault::Fault;

// A day with what it began with: its orders are written with that, whatever the phase.
pub trait Written {
    ghost beginning: { Self → OpeningOf };

    fn opening(&self) -> &Opening
        ensures { result.now ≡ beginning self.now };

    // Writes the day's text at the front of the output. Answers its length.
    fn write(&self, rows: &[Row], out: &mut [u8]) -> Result<usize, Fault>
        ensures gives { result ≡ write_answer (length rows.now) (bytes_of (beginning self.now) rows.now) out.old }
        ensures leaves { out.new ≡ output_after (length rows.now) (bytes_of (beginning self.now) rows.now) out.old }
        ensures ordered { Sequenced (places rows.now) }
        ensures returns { Proper (length (sets_of (beginning self.now).blocks)) (places rows.now) → Returns (day_in (beginning self.now) rows.now) }
    {
        write(self.opening(), rows, out)
    }
}

impl Written for Open {
    ghost beginning = { λ s. s.opening };

    fn opening(&self) -> &Opening {
        &self.opening
    }
}

impl Written for Fixed {
    ghost beginning = { λ s. s.opening };

    fn opening(&self) -> &Opening {
        &self.opening
    }
}

impl Written for Post {
    ghost beginning = { λ s. s.opening };

    fn opening(&self) -> &Opening {
        &self.opening
    }
}

impl Written for Final {
    ghost beginning = { λ s. s.opening };

    fn opening(&self) -> &Opening {
        &self.opening
    }
}
