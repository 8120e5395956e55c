// What stops a report: tables that are refused, or want of memory.
ghost use Rattle.std.specs.Prelude.{◌≡◌};
ghost use Rattle.report.specs.declared.stops.Stop.TheVariants.{Refused, Memory};

use faults::fault::Fault;
use std::alloc::AllocError;

#[derive(Clone, Copy, PartialEq, Eq, Debug)]
pub enum Stop {
    Refused(Fault),
    Memory,
}

impl From<Fault> for Stop {
    ghost from_gives = { λ f r. r ≡ Refused f };

    fn from(fault: Fault) -> Stop {
        Stop::Refused(fault)
    }
}

impl From<AllocError> for Stop {
    ghost from_gives = { λ _ r. r ≡ Memory };

    fn from(_error: AllocError) -> Stop {
        Stop::Memory
    }
}
