// The tokens of the input.
ghost use Rattle.std.specs.Prelude.{◌≡◌, ◌+◌, ◌-◌, ◌^◌, ◌≤◌, min, length, position};
ghost use Rattle.std.specs.List.{list_all};
ghost use Rattle.std.specs.Char.{is_ascii_digit};
ghost use Rattle.text.specs.Format.{parting, run};
ghost use Rattle.text.specs.Items.{numeral, number_after};
ghost use Rattle.text.specs.Tokens.{seen, token_of, size, ahead};

use crate::reader::{Placed, Reader, Token};

// Where the first space or line end stands.
fn first_end(rest: &[u8]) -> Option<usize>
    ensures { result ≡ position parting rest.now }
{
    rest.iter().position(|c| *c == b' ' || *c == b'\n')
}

// The bytes before a space, a line end or the end.
fn item_of(rest: &[u8]) -> &[u8]
    ensures { result.now ≡ run rest.now }
{
    let end = first_end(rest).unwrap_or(rest.len());
    &rest[..end]
}

fn all_digits(item: &[u8]) -> bool
    ensures { result ≡ list_all is_ascii_digit item.now }
{
    item.iter().all(u8::is_ascii_digit)
}

// Digits, the first of which is 0 only where it stands alone.
fn is_numeral(item: &[u8]) -> bool
    ensures { result ≡ numeral item.now }
{
    match item {
        [] => false,
        [b'0', more @ ..] => more.is_empty(),
        _ => all_digits(item),
    }
}

// The number that the digits write, or the greatest of 64 bits where it is more: any range that 32 bits can hold ends below.
pub(crate) fn value_of(digits: &[u8]) -> u64
    ensures { result ≡ min (2 ^ 64 - 1) (number_after 0 digits.now) }
{
    digits.iter().fold(0u64, |n, c| {
        n.saturating_mul(10)
            .saturating_add(u64::from(c.saturating_sub(b'0')))
    })
}

// The token that `rest` begins with.
#[tactic(auto, using(crate::proofs::Scans::run_within))]
fn first_token(rest: &[u8]) -> Token
    ensures token { seen result ≡ token_of rest.now }
    ensures within { size (seen result) ≤ length rest.now }
{
    match rest {
        [] => Token::End,
        [b' ', ..] => Token::Space,
        [b'\n', ..] => Token::Line,
        _ => {
            let item = item_of(rest);
            if is_numeral(item) {
                Token::Number(item)
            } else {
                Token::Word(item)
            }
        }
    }
}

fn length_of(token: Token) -> usize
    ensures { result ≡ size (seen token.entry) }
{
    match token {
        Token::Word(bytes) | Token::Number(bytes) => bytes.len(),
        Token::Space | Token::Line => 1,
        Token::End => 0,
    }
}

impl<'a> Reader<'a> {
    pub fn new(input: &'a [u8]) -> Reader<'a>
        ensures input { result.input.now ≡ input.now }
        ensures at { result.at ≡ 0 }
    {
        Reader { input, at: 0 }
    }

    // The next token, and the place after it.
    pub fn next(&mut self) -> Placed<'a>
        ensures place { result.place ≡ self.old.at }
        ensures token { seen result.token ≡ token_of (ahead self.old) }
        ensures at { self.new.at ≡ self.old.at + size (token_of (ahead self.old)) }
        ensures input { self.new.input.now ≡ self.old.input.now }
    {
        let place = self.at;
        let token = first_token(self.rest());
        self.at = place + length_of(token);
        Placed { place, token }
    }

    // What follows the place reached.
    pub fn rest(&self) -> &'a [u8]
        ensures { result.now ≡ ahead self.now }
    {
        &self.input[self.at..]
    }
}
