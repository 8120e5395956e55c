// The items of a line, each with the byte that ends it. Where the line begins is handed to each call, since a rule that is
// tested after a line was read still names that line.
ghost use Rattle.std.specs.Prelude.{◌≡◌, ◌≤◌, IfOk};
ghost use Rattle.text.specs.Closing.{close_byte};
ghost use Rattle.text.specs.Format.{closed, item};
ghost use Rattle.text.specs.Items.{number as numberItem};
ghost use Rattle.text.specs.Tokens.{seen, number_seen, answered, told, ahead};

use crate::close::Close;
use crate::reader::{Placed, Reader, Token};
use crate::scan::value_of;
use faults::fault::{Fault, Refusal};

impl<'a> Placed<'a> {
    // The number that a token writes, if it is one from `low` to `high`.
    fn number(self, line: usize, low: u32, high: u32) -> Result<u32, Fault>
        ensures answer { result ≡ answered (number_seen low high (seen self.entry.token)) self.entry.place line }
        ensures range { IfOk result (λ n. n ≤ high) }
    {
        let Token::Number(digits) = self.token else {
            return Err(self.misfit(line));
        };
        match u32::try_from(value_of(digits)) {
            Ok(n) if (low..=high).contains(&n) => Ok(n),
            _ => Err(Refusal::OutOfRange(self.place).in_line(line)),
        }
    }
}

impl<'a> Reader<'a> {
    // The space or line end that ends an item.
    pub fn close(&mut self, line: usize, end: Close) -> Result<(), Fault>
        ensures told { told result self.new ≡ closed (close_byte end) tt line self.old.at (ahead self.old) }
        ensures input { self.new.input.now ≡ self.old.input.now }
    {
        let next = self.next();
        match (end, next.token) {
            (Close::Space, Token::Space) | (Close::Line, Token::Line) => Ok(()),
            _ => Err(next.misfit(line)),
        }
    }

    // A number from `low` to `high`, and what ends it.
    pub fn number(&mut self, line: usize, low: u32, high: u32, end: Close) -> Result<u32, Fault>
        ensures told { told result self.new ≡ (item (numberItem low high) (close_byte end)).read line self.old.at (ahead self.old) }
        ensures input { self.new.input.now ≡ self.old.input.now }
        ensures range { IfOk result (λ n. n ≤ high) }
    {
        let n = self.next().number(line, low, high)?;
        self.close(line, end)?;
        Ok(n)
    }
}
