// Text written into a lent output at any place, for a caller whose output has a text of its own before and behind; a new text
// is printed on a `Page`. What would stand past the output's end is dropped, so measure a text before it is written.
ghost use Rattle.std.specs.Prelude.{◌≡◌, ◌+◌, ◌%◌, ◌≤◌, [], ◌∷◌, ◌++◌, length, decimal};
ghost use Rattle.text.specs.Closing.{close_byte};
ghost use Rattle.text.specs.Writes.{wrote, reached, stored, next_at};

use crate::close::Close;
use crate::words::Named;

// A byte at the place `at`, and the place after it.
pub fn put_byte(out: &mut [u8], at: usize, b: u8) -> usize
    ensures out { out.new ≡ stored out.old at b }
    ensures at { result ≡ next_at out.old at }
{
    if at < out.len() {
        out[at] = b;
        at + 1
    } else {
        at
    }
}

pub fn put_word(out: &mut [u8], at: usize, w: &[u8]) -> usize
    ensures out { out.new ≡ wrote out.old at w.now }
    ensures at { result ≡ reached out.old at w.now }
{
    let mut end = at;
    for b in w {
        end = put_byte(out, end, *b);
    }
    end
}

// The last digit of a number.
fn last_digit(n: u64) -> u8
    ensures { result ≡ 48 + n % 10 }
{
    b'0' + (n % 10) as u8
}

// A number in decimal.
pub fn put_number(out: &mut [u8], at: usize, n: u64) -> usize
    ensures out { out.new ≡ wrote out.old at (decimal n) }
    ensures at { result ≡ reached out.old at (decimal n) }
{
    if n < 10 {
        return put_byte(out, at, last_digit(n));
    }
    let last = put_number(out, at, n / 10);
    put_byte(out, last, last_digit(n))
}

// A number and what ends it.
#[tactic(auto, using(crate::proofs::Writings::write_last, crate::proofs::Writings::reached_last))]
pub fn put_number_item(out: &mut [u8], at: usize, n: u64, end: Close) -> usize
    ensures out { out.new ≡ wrote out.old at (decimal n ++ (close_byte end ∷ [])) }
    ensures at { result ≡ reached out.old at (decimal n ++ (close_byte end ∷ [])) }
{
    let last = put_number(out, at, n);
    put_byte(out, last, u8::from(end))
}

// A word and what ends it.
#[tactic(auto, using(crate::proofs::Writings::write_last, crate::proofs::Writings::reached_last))]
pub fn put_word_item(out: &mut [u8], at: usize, w: &[u8], end: Close) -> usize
    ensures out { out.new ≡ wrote out.old at (w.now ++ (close_byte end ∷ [])) }
    ensures at { result ≡ reached out.old at (w.now ++ (close_byte end ∷ [])) }
{
    let last = put_word(out, at, w);
    put_byte(out, last, u8::from(end))
}

// The word that names a value, and what ends it.
pub fn put_named<W: Named>(out: &mut [u8], at: usize, value: W, end: Close) -> usize
    ensures out { out.new ≡ wrote out.old at (W.Named.name value ++ (close_byte end ∷ [])) }
    ensures at { result ≡ reached out.old at (W.Named.name value ++ (close_byte end ∷ [])) }
{
    put_word_item(out, at, value.word_of(), end)
}
