// From a draft to an order ready to be written, or the first refusal.
ghost use Rattle.std.specs.Prelude.{◌≡◌, Err, cond};
ghost use Rattle.faults.specs.Answers.{viewed, granting, out_of_range};
ghost use Rattle.curves.specs.Offers.{offer};
ghost use Rattle.curves.specs.Orders.{offer_of};
ghost use Rattle.book.specs.Verdicts.{form_verdict, block_form, block_verdict};
ghost use Rattle.book.specs.Drafted.{form_of, too_many, asked_of, draft_verdict};
ghost use Rattle.book.specs.Views.{ticket_of};

use crate::drafts::{Draft, Terms};
use crate::ranges::{bad_member, bad_product, bad_row, is_block};
use crate::tickets::Ticket;
use curves::lines::Linear;
use curves::markets::Market;
use curves::orders::Order;
use curves::sides::Side;
use curves::steps::Step;
use faults::fault::{Fault, Refusal};

fn order_of(side: Side, terms: &Terms) -> Result<Order, Fault>
    ensures { viewed offer_of result ≡ cond (too_many terms.now) (Err out_of_range) (granting (form_verdict side (form_of terms.now)) (offer side (form_of terms.now))) }
{
    match terms {
        Terms::Market(volume) => Ok(Order::Market(Market::new(side, *volume)?)),
        Terms::Step(quotes) => Ok(Order::Step(Step::new(side, quotes.listed()?)?)),
        Terms::Linear(quotes) => Ok(Order::Linear(Linear::new(side, quotes.listed()?)?)),
    }
}

// A block order is a market order or a step order of one pair.
fn block_form(order: &Order) -> bool
    ensures { result ≡ block_form (offer_of order.now).form }
{
    match order {
        Order::Market(_) => true,
        Order::Step(step) => step.chain.pairs().len() == 1,
        Order::Linear(_) => false,
    }
}

// The refusals of a block order; an order of an hour has none of them.
fn judge_block(product: u32, order: &Order, blocks: usize) -> Result<(), Fault>
    ensures { result ≡ block_verdict blocks product (offer_of order.now).form }
{
    if !is_block(product) {
        return Ok(());
    }
    if (product - 24) as usize > blocks {
        return Err(Refusal::NoSuchBlock.without_text());
    }
    if !block_form(order) {
        return Err(Refusal::BlockForm.without_text());
    }
    Ok(())
}

// The order of a draft in a day that has this number of blocks.
#[tactic(auto, unfolding(crate::specs::Drafted::draft_verdict, crate::specs::Drafted::asked_of, crate::specs::Verdicts::verdict, crate::specs::Views::ticket_of))]
pub fn admit(draft: &Draft, blocks: usize) -> Result<Ticket, Fault>
    ensures { viewed ticket_of result ≡ granting (draft_verdict blocks draft.now) (asked_of draft.now) }
{
    if bad_row(draft.row) || bad_member(draft.member) || bad_product(draft.product) {
        return Err(Refusal::OutOfRange(0).without_text());
    }
    let order = order_of(draft.side, &draft.terms)?;
    judge_block(draft.product, &order, blocks)?;
    Ok(Ticket {
        row: draft.row,
        member: draft.member,
        product: draft.product,
        order,
    })
}
