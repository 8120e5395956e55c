// A fault as it is printed: layer, number, place and line.
ghost use Rattle.std.specs.Prelude.{Some};
ghost use Rattle.faults.specs.Shown.{layer_name, fault_shown};

use crate::fault::{Fault, Layer};
use std::fmt;

impl fmt::Display for Layer {
    ghost output = { λ l. Some (layer_name l) };

    fn fmt<W: fmt::Write>(&self, f: &mut fmt::Formatter<W>) -> fmt::Result {
        match self {
            Layer::Text => write!(f, "text"),
            Layer::Order => write!(f, "order"),
            Layer::Day => write!(f, "day"),
        }
    }
}

impl fmt::Display for Fault {
    ghost output = { λ x. Some (fault_shown x) };

    fn fmt<W: fmt::Write>(&self, f: &mut fmt::Formatter<W>) -> fmt::Result {
        let layer = self.refusal.layer();
        let number = self.refusal.number();
        let place = self.refusal.place();
        let line = self.line;
        write!(f, "{layer} {number} {place} {line}")
    }
}
