// A fault told by its four parts: layer, number, place and line.
ghost use Rattle.std.specs.Prelude.{◌≡◌};
ghost use Rattle.faults.specs.Refusals.{layer_of, number_of, place_of, fault};

use crate::fault::{Fault, Layer, Refusal};

impl Refusal {
    pub fn layer(self) -> Layer
        ensures { result ≡ layer_of self }
    {
        match self {
            Refusal::Misfit(_) | Refusal::OutOfRange(_) | Refusal::WrongLength => Layer::Text,
            Refusal::TickNotAbove(_)
            | Refusal::VolumeTurned(_)
            | Refusal::NoSuchBlock
            | Refusal::BlockForm => Layer::Order,
            _ => Layer::Day,
        }
    }

    pub fn number(self) -> u8
        ensures { result ≡ number_of self }
    {
        match self {
            Refusal::Misfit(_) => 1,
            Refusal::OutOfRange(_) => 2,
            Refusal::TickNotAbove(_) => 3,
            Refusal::VolumeTurned(_) => 4,
            Refusal::NoSuchBlock => 5,
            Refusal::BlockForm => 6,
            Refusal::WrongLength => 7,
            Refusal::WrongPhase => 11,
            Refusal::RowTaken(_) => 12,
            Refusal::RowEmpty(_) => 13,
            Refusal::OtherMember(_) => 14,
            Refusal::BlocksFull(_) => 15,
            Refusal::StampsSpent => 16,
            Refusal::PostsFull(_) => 17,
            Refusal::NothingLeft(_) => 18,
            Refusal::WholeTooLarge(_) => 19,
        }
    }

    pub fn place(self) -> usize
        ensures { result ≡ place_of self }
    {
        match self {
            Refusal::Misfit(byte) | Refusal::OutOfRange(byte) => byte,
            Refusal::TickNotAbove(pair) | Refusal::VolumeTurned(pair) => pair,
            Refusal::RowTaken(row)
            | Refusal::RowEmpty(row)
            | Refusal::OtherMember(row)
            | Refusal::BlocksFull(row) => row,
            Refusal::PostsFull(hour) | Refusal::NothingLeft(hour) | Refusal::WholeTooLarge(hour) =>
                hour,
            _ => 0,
        }
    }

    // The fault of a text whose line begins at `line`.
    pub fn in_line(self, line: usize) -> Fault
        ensures { result ≡ fault self line }
    {
        Fault {
            refusal: self,
            line,
        }
    }

    // The fault of a call that has no text.
    pub fn without_text(self) -> Fault
        ensures { result ≡ fault self 0 }
    {
        self.in_line(0)
    }
}
