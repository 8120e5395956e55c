// A call, and the portion of a post order, as a line names them.
use calls::posts::Portion;

#[derive(Clone, Copy, PartialEq, Eq, Debug)]
pub enum CallName {
    Enter,
    Change,
    Withdraw,
    Fix,
    Recall,
    Confirm,
    Post,
    Finish,
}

// A type of this crate, since an impl of text's `Named` for calls' `Portion` is refused here.
#[derive(Clone, Copy, PartialEq, Eq, Debug)]
pub struct PortionWord {
    pub portion: Portion,
}
