// Examples: a block that is dropped, the shares of an hour with surplus, and a block's price.
use crate::block_prices::block_price;
use crate::fixing::fix;
use crate::marks::{Cause, Mark};
use crate::results::HourResult;
use crate::sharing::hour_shares;
use book::admit::admit;
use book::blocks::Blocks;
use book::drafts::{Draft, Quotes, Terms};
use book::entering::enter;
use book::rows::Row;
use curves::quotes::Quote;
use curves::sides::Side;
use curves::ticks::Tick;
use faults::fault::{Fault, Refusal};
use std::test::Fail;

fn at(price: u32) -> HourResult {
    HourResult {
        price,
        executed: 0,
        surplus: 0,
        side: Side::Sell,
    }
}

// Enters a step order of one pair into the row of its number.
fn entered(
    rows: &mut [Row],
    given: u32,
    product: u32,
    side: Side,
    tick: u32,
    volume: u32,
) -> Result<u32, Fault> {
    let draft = Draft {
        row: given as usize,
        member: 7,
        product,
        side,
        terms: Terms::Step(Quotes {
            pairs: [Quote { tick, volume }; 8],
            count: 1,
        }),
    };
    enter(rows, given, &admit(&draft, 1)?)
}

#[test]
fn a_block_is_dropped_by_loss(rt: HostRuntime) -> Result<(), Fail> {
    let mut rows = [None; 256];
    let mut blocks = Blocks::none();
    blocks.push(3)?;
    entered(&mut rows, 0, 1, Side::Sell, 4000, 10)?;
    entered(&mut rows, 1, 2, Side::Sell, 5200, 10)?;
    entered(&mut rows, 2, 25, Side::Buy, 5099, 10)?;
    let references = [Tick::new(5000)?; 24];
    let mut hours = [at(0); 24];
    let mut marks = [Mark::Kept; 256];
    assert_eq!(rt;
        fix(&rows, &blocks, &references, &mut hours, &mut marks),
        Ok(2)
    );
    assert_eq!(rt; hours[0].price, 3999);
    assert_eq!(rt; hours[1].price, 5000);
    assert_eq!(rt; marks[2], Mark::Dropped(1, Cause::Loss));
    Ok(())
}

#[test]
fn the_larger_area_is_served_first(rt: HostRuntime) -> Result<(), Fail> {
    let mut rows = [None; 256];
    let blocks = Blocks::none();
    entered(&mut rows, 0, 1, Side::Buy, 6000, 100)?;
    entered(&mut rows, 1, 1, Side::Buy, 7000, 50)?;
    entered(&mut rows, 2, 1, Side::Sell, 4000, 120)?;
    let references = [Tick::new(5000)?; 24];
    let mut hours = [at(0); 24];
    let mut marks = [Mark::Kept; 256];
    let mut shares = [0; 256];
    fix(&rows, &blocks, &references, &mut hours, &mut marks)?;
    hour_shares(&rows, &blocks, &marks, 1, &hours[0], 10, &mut shares)?;
    assert_eq!(rt; hours[0].price, 6000);
    assert_eq!(rt; shares[0], 80);
    assert_eq!(rt; shares[1], 50);
    assert_eq!(rt; shares[2], 120);
    Ok(())
}

#[test]
fn half_a_cent_upward(rt: HostRuntime) {
    let mut results = [at(5000); 24];
    results[1] = at(5001);
    assert_eq!(rt; block_price(3, &results), Ok(5001));
    assert_eq!(rt; block_price(7, &results), Ok(5000));
    assert_eq!(rt;
        block_price(0, &results),
        Err(Refusal::OutOfRange(0).without_text())
    );
}
