// Examples: the answers of calls, a final day, and tables that are refused.
use crate::answers::{push_answers, push_fault};
use crate::finals::push_final;
use crate::stops::Stop;
use book::admit::admit;
use book::blocks::Blocks;
use book::drafts::{Draft, Quotes, Terms};
use book::entering::enter;
use book::rows::Row;
use clearing::marks::Mark;
use clearing::results::HourResult;
use curves::quotes::Quote;
use curves::sides::Side;
use faults::fault::{Fault, Refusal};
use posting::fills::Fill;
use std::test::Fail;

fn at(price: u32, executed: u64) -> HourResult {
    HourResult {
        price,
        executed,
        surplus: 30,
        side: Side::Buy,
    }
}

fn taken(volume: u32) -> Fill {
    Fill {
        member: 9,
        hour: 1,
        side: Side::Sell,
        volume,
    }
}

// Enters an order of one pair for hour 1 into the row of its number.
fn entered(rows: &mut [Row], given: u32, side: Side, tick: u32, volume: u32) -> Result<u32, Fault> {
    let draft = Draft {
        row: given as usize,
        member: 7,
        product: 1,
        side,
        terms: Terms::Step(Quotes {
            pairs: [Quote { tick, volume }; 8],
            count: 1,
        }),
    };
    let ticket = admit(&draft, 1)?;
    enter(rows, given, &ticket)
}

#[test]
fn a_refusal_has_the_line_of_its_call(rt: HostRuntime) -> Result<(), Fail> {
    let mut out = String::new(rt.alloc());
    let refused = Refusal::RowEmpty(3).without_text();
    push_answers(&mut out, &[0, 17, 40], &[Ok(1), Err(refused)])?;
    push_fault(&mut out, &refused)?;
    assert_eq!(rt; out.as_str(), "ok 1\nno day 13 3 17\nno day 13 3 0\n");
    Ok(())
}

#[test]
fn a_final_day(rt: HostRuntime) -> Result<(), Fail> {
    let mut out = String::new(rt.alloc());
    let mut rows = [None; 256];
    let mut blocks = Blocks::none();
    let mut hours = [at(5000, 0); 24];
    blocks.push(3)?;
    entered(&mut rows, 0, Side::Buy, 6000, 100)?;
    entered(&mut rows, 1, Side::Buy, 7000, 50)?;
    entered(&mut rows, 2, Side::Sell, 4000, 120)?;
    hours[0] = at(6000, 120);
    push_final(
        &mut out,
        &rows,
        &blocks,
        &hours,
        &[Mark::Kept; 256],
        &[taken(10); 128],
        1,
    )?;
    assert_eq!(rt;
        out.as_str(),
        "hour 1 price 6000 volume 130\nblock 1 price 5500\nrow 0 hour 1 share 80\nrow 1 hour 1 share 50\nrow 2 hour 1 share 120\npost 9 hour 1 fill 10\n"
    );
    Ok(())
}

#[test]
fn no_price_is_refused(rt: HostRuntime) {
    let mut out = String::new(rt.alloc());
    let mut hours = [at(5000, 1); 24];
    hours[23] = at(0, 0);
    assert_eq!(rt;
        push_final(
            &mut out,
            &[None; 256],
            &Blocks::none(),
            &hours,
            &[Mark::Kept; 256],
            &[taken(1); 128],
            0,
        ),
        Err(Stop::Refused(Refusal::OutOfRange(0).without_text()))
    );
    assert_eq!(rt; out.as_str(), "");
}
