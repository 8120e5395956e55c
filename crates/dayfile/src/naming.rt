// The words of an order line.
ghost use Rattle.std.specs.Prelude.{[], ◌∷◌};
ghost use Rattle.curves.specs.declared.sides.Side.TheVariants.{Buy, Sell};
ghost use Rattle.dayfile.specs.Kinds.{side_name, word_of, kind_name};
ghost use Rattle.dayfile.specs.declared.kinds.Kind.TheVariants.{Market, Step, Linear};

use crate::kinds::{Kind, SideWord};
use curves::sides::Side;
use text::words::Named;

impl Named for SideWord {
    ghost name = { λ w. side_name w.side };

    ghost all = { word_of Buy ∷ word_of Sell ∷ [] };

    fn of_word(w: &[u8]) -> Option<SideWord> {
        match w {
            b"buy" => Some(SideWord { side: Side::Buy }),
            b"sell" => Some(SideWord { side: Side::Sell }),
            _ => None,
        }
    }

    fn word_of(self) -> &'static [u8] {
        match self.side {
            Side::Buy => b"buy",
            Side::Sell => b"sell",
        }
    }
}

impl Named for Kind {
    ghost name = { kind_name };

    ghost all = { Market ∷ Step ∷ Linear ∷ [] };

    fn of_word(w: &[u8]) -> Option<Kind> {
        match w {
            b"market" => Some(Kind::Market),
            b"step" => Some(Kind::Step),
            b"linear" => Some(Kind::Linear),
            _ => None,
        }
    }

    fn word_of(self) -> &'static [u8] {
        match self {
            Kind::Market => b"market",
            Kind::Step => b"step",
            Kind::Linear => b"linear",
        }
    }
}
