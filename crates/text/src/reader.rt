// A place in the input, and the tokens that stand there.
ghost use Rattle.std.specs.Prelude.{◌≡◌, ◌≤◌, length};
ghost use Rattle.faults.specs.Refusals.{fault};
ghost use Rattle.faults.specs.declared.fault.Refusal.TheVariants.{Misfit};

use faults::fault::{Fault, Refusal};

// The whole input and the place reached in it, so that what follows is a stated part of the input.
#[derive(Drop)]
pub struct Reader<'a> {
    pub input: &'a [u8],
    pub at: usize,
    ghost within: { at ≤ length input.now },
}

// A word or a number borrows its bytes from the input.
#[derive(Clone, Copy, PartialEq, Eq, Debug)]
pub enum Token<'a> {
    Word(&'a [u8]),
    Number(&'a [u8]),
    Space,
    Line,
    End,
}

// A token and its byte offset.
#[derive(Clone, Copy, PartialEq, Eq, Debug)]
pub struct Placed<'a> {
    pub place: usize,
    pub token: Token<'a>,
}

impl<'a> Placed<'a> {
    // The fault of a token that is not what is due.
    pub(crate) fn misfit(self, line: usize) -> Fault
        ensures { result ≡ fault (Misfit self.entry.place) line }
    {
        Refusal::Misfit(self.place).in_line(line)
    }
}
