// An order that stands in the book, with its stamp.
ghost use Rattle.std.specs.Prelude.{◌≤◌};

use curves::orders::Order;

#[derive(Clone, Copy)]
pub struct Entry {
    pub member: u32,
    pub product: u32,
    pub order: Order,
    pub stamp: u32,
    ghost someone: { 1 ≤ member },
    ghost known: { member ≤ 999 },
    ghost some: { 1 ≤ product },
    ghost listed: { product ≤ 38 },
    ghost first: { 1 ≤ stamp },
    ghost last: { stamp ≤ 60000 },
}
