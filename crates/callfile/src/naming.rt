// The words of a call line.
ghost use Rattle.std.specs.Prelude.{[], ◌∷◌};
ghost use Rattle.calls.specs.declared.posts.Portion.TheVariants.{Part, Whole};
ghost use Rattle.callfile.specs.Names.{call_name, all_calls, portion_name, word_of};

use crate::names::{CallName, PortionWord};
use calls::posts::Portion;
use text::words::Named;

impl Named for CallName {
    ghost name = { call_name };

    ghost all = { all_calls };

    fn of_word(w: &[u8]) -> Option<CallName> {
        match w {
            b"enter" => Some(CallName::Enter),
            b"change" => Some(CallName::Change),
            b"withdraw" => Some(CallName::Withdraw),
            b"fix" => Some(CallName::Fix),
            b"recall" => Some(CallName::Recall),
            b"confirm" => Some(CallName::Confirm),
            b"post" => Some(CallName::Post),
            b"finish" => Some(CallName::Finish),
            _ => None,
        }
    }

    fn word_of(self) -> &'static [u8] {
        match self {
            CallName::Enter => b"enter",
            CallName::Change => b"change",
            CallName::Withdraw => b"withdraw",
            CallName::Fix => b"fix",
            CallName::Recall => b"recall",
            CallName::Confirm => b"confirm",
            CallName::Post => b"post",
            CallName::Finish => b"finish",
        }
    }
}

impl Named for PortionWord {
    ghost name = { λ w. portion_name w.portion };

    ghost all = { word_of Part ∷ word_of Whole ∷ [] };

    fn of_word(w: &[u8]) -> Option<PortionWord> {
        let portion = match w {
            b"part" => Portion::Part,
            b"whole" => Portion::Whole,
            _ => return None,
        };
        Some(PortionWord { portion })
    }

    fn word_of(self) -> &'static [u8] {
        match self.portion {
            Portion::Part => b"part",
            Portion::Whole => b"whole",
        }
    }
}
