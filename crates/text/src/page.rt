// A page of text, written from its front. What would stand past its end is dropped, so take a page that a text fits.
ghost use Rattle.std.specs.Prelude.{◌≡◌, ◌≤◌, [], ◌∷◌, ◌++◌, length, decimal};
ghost use Rattle.text.specs.Closing.{close_byte};
ghost use Rattle.text.specs.Pages.{printed};

use crate::close::Close;
use crate::words::Named;
use arrayvec::ArrayVec;
use itoa::Buffer;
use std::marker::Model;

#[derive(Drop)]
pub struct Page<const N: usize> {
    bytes: ArrayVec<u8, N>,
}

// Clauses see the text that stands on the page.
impl<const N: usize> Model for Page<N> {
    ghost use Rattle.std.specs.Prelude.{ℕ, List};

    ghost Value = { List ℕ };

    ghost view = { λ p. p.bytes.items };
}

impl<const N: usize> Page<N> {
    pub fn new() -> Page<N>
        ensures { result ≡ [] }
    {
        Page {
            bytes: ArrayVec::new(),
        }
    }

    // What is written so far.
    pub fn text(&self) -> &[u8]
        ensures is { result.now ≡ self.now }
        ensures fits { length result.now ≤ N }
    {
        self.bytes.as_slice()
    }

    pub fn word(&mut self, w: &[u8])
        ensures { self.new ≡ printed N self.old w.now }
    {
        let room = self.bytes.remaining_capacity().min(w.len());
        self.bytes.try_extend_from_slice(&w[..room]).unwrap();
    }

    pub fn byte(&mut self, b: u8)
        ensures { self.new ≡ printed N self.old (b ∷ []) }
    {
        self.word(&[b]);
    }

    // A number in decimal.
    pub fn number(&mut self, n: u64)
        ensures { self.new ≡ printed N self.old (decimal n) }
    {
        let mut digits = Buffer::new();
        self.word(digits.format(n).as_bytes());
    }

    // A word and what ends it.
    #[tactic(auto, using(crate::proofs::Paging::printed_on))]
    pub fn word_item(&mut self, w: &[u8], end: Close)
        ensures { self.new ≡ printed N self.old (w.now ++ (close_byte end ∷ [])) }
    {
        self.word(w);
        self.byte(u8::from(end));
    }

    // A number and what ends it.
    #[tactic(auto, using(crate::proofs::Paging::printed_on))]
    pub fn number_item(&mut self, n: u64, end: Close)
        ensures { self.new ≡ printed N self.old (decimal n ++ (close_byte end ∷ [])) }
    {
        self.number(n);
        self.byte(u8::from(end));
    }

    // The word that names a value, and what ends it.
    pub fn named<W: Named>(&mut self, value: W, end: Close)
        ensures { self.new ≡ printed N self.old (W.Named.name value ++ (close_byte end ∷ [])) }
    {
        self.word_item(value.word_of(), end);
    }
}
