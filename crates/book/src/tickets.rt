// An order that is ready to be written into its row.
ghost use Rattle.std.specs.Prelude.{◌≤◌};

use curves::orders::Order;

// An entry's member and product again: a part shared by the two would only add a step to every place that reads an entry.
#[derive(Clone, Copy)]
pub struct Ticket {
    pub row: usize,
    pub member: u32,
    pub product: u32,
    pub order: Order,
    ghost placed: { row ≤ 255 },
    ghost someone: { 1 ≤ member },
    ghost known: { member ≤ 999 },
    ghost some: { 1 ≤ product },
    ghost listed: { product ≤ 38 },
}
