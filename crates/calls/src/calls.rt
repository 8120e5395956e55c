// A call and what it takes: any numbers.
use crate::posts::PostOrder;
use book::drafts::Draft;

#[derive(Clone, Copy)]
pub enum Call {
    Enter(Draft),
    Change(Draft),
    // A row and a member.
    Withdraw(usize, u32),
    Fix,
    Recall,
    Confirm,
    Post(PostOrder),
    Finish,
}
