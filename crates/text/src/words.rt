// Words, by what they name.
ghost use Rattle.std.specs.Prelude.{◌≡◌, ℕ, List, [], ◌∷◌};
ghost use Rattle.text.specs.Closing.{close_byte};
ghost use Rattle.text.specs.Format.{alone, item};
ghost use Rattle.text.specs.Items.{named, verdict, word as word_item, keyword as keywordItem};
ghost use Rattle.text.specs.Tokens.{seen, word_seen, answered, told, ahead};

use crate::close::Close;
use crate::reader::{Placed, Reader, Token};
use faults::fault::Fault;

// Values that have names, as the sides `buy` and `sell`. A word stands in a match each way: a search of all values by their
// words would take as many lines, and the list of all besides.
pub trait Named: Copy {
    ghost name: { Self → List ℕ };

    ghost all: { List Self };

    // The value that the word names.
    fn of_word(w: &[u8]) -> Option<Self>
        ensures { verdict result ≡ named name all w.now };

    // The word that names the value.
    fn word_of(self) -> &'static [u8]
        ensures { result.now ≡ name self };
}

impl<'a> Placed<'a> {
    // The value that a token names, if it is a word that does.
    fn name<W: Named>(self, line: usize) -> Result<W, Fault>
        ensures { result ≡ answered (word_seen W.Named.name W.Named.all (seen self.entry.token)) self.entry.place line }
    {
        match self.token {
            Token::Word(w) => W::of_word(w).ok_or(self.misfit(line)),
            _ => Err(self.misfit(line)),
        }
    }

    // Whether a token is the word that is due.
    fn keyword(self, line: usize, word: &[u8]) -> Result<(), Fault>
        ensures { result ≡ answered (word_seen (λ _. word.now) (tt ∷ []) (seen self.entry.token)) self.entry.place line }
    {
        match self.token {
            Token::Word(w) if word == w => Ok(()),
            _ => Err(self.misfit(line)),
        }
    }
}

impl<'a> Reader<'a> {
    // The value that the next word names, without what ends it.
    pub fn name<W: Named>(&mut self, line: usize) -> Result<W, Fault>
        ensures told { told result self.new ≡ alone (word_item W.Named.name W.Named.all) line self.old.at (ahead self.old) }
        ensures input { self.new.input.now ≡ self.old.input.now }
    {
        self.next().name::<W>(line)
    }

    // A word that names a value, and what ends it.
    pub fn word<W: Named>(&mut self, line: usize, end: Close) -> Result<W, Fault>
        ensures told { told result self.new ≡ (item (word_item W.Named.name W.Named.all) (close_byte end)).read line self.old.at (ahead self.old) }
        ensures input { self.new.input.now ≡ self.old.input.now }
    {
        let value = self.name::<W>(line)?;
        self.close(line, end)?;
        Ok(value)
    }

    // A fixed word, and what ends it.
    pub fn keyword(&mut self, line: usize, word: &[u8], end: Close) -> Result<(), Fault>
        ensures told { told result self.new ≡ (item (keywordItem word.now) (close_byte end)).read line self.old.at (ahead self.old) }
        ensures input { self.new.input.now ≡ self.old.input.now }
    {
        self.next().keyword(line, word)?;
        self.close(line, end)
    }
}
