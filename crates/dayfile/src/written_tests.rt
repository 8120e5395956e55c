// A day as it is written.
use crate::opening::Opening;
use crate::writing::write;
use book::admit::admit;
use book::blocks::Blocks;
use book::drafts::{Draft, Quotes, Terms};
use book::entering::enter;
use book::rows::Row;
use curves::quotes::Quote;
use curves::sides::Side;
use curves::ticks::Tick;
use faults::fault::{Fault, Refusal};
use std::test::Fail;

fn opening() -> Result<Opening, Fault> {
    let tick = Tick::new(5000)?;
    let mut blocks = Blocks::none();
    blocks.push(3)?;
    Ok(Opening {
        references: [tick; 24],
        blocks,
        given: 2,
    })
}

fn draft(row: usize, product: u32, side: Side, terms: Terms) -> Draft {
    Draft {
        row,
        member: 7,
        product,
        side,
        terms,
    }
}

fn fill(rows: &mut [Row]) -> Result<(), Fault> {
    let pairs = [Quote {
        tick: 6000,
        volume: 100,
    }; 8];
    let step = Terms::Step(Quotes { pairs, count: 1 });
    enter(rows, 0, &admit(&draft(9, 1, Side::Buy, step), 1)?)?;
    enter(
        rows,
        1,
        &admit(&draft(0, 25, Side::Sell, Terms::Market(10)), 1)?,
    )?;
    Ok(())
}

#[test]
fn orders_stand_in_stamp_sequence(rt: HostRuntime) -> Result<(), Fail> {
    let mut rows = [None; 256];
    fill(&mut rows)?;
    let mut out = [b'.'; 200];
    assert_eq!(rt; write(&opening()?, &rows, &mut out), Ok(197));
    assert_eq!(rt; &out[0..14], b"hours 24\n5000 ".as_slice());
    assert_eq!(rt;
        &out[124..200],
        b"5000\nblocks 1\n3\norders 2\n9 7 1 buy step 1 6000 100\n0 7 25 sell market 10\n...".as_slice()
    );
    Ok(())
}

#[test]
fn a_short_output_is_left_as_it_was(rt: HostRuntime) -> Result<(), Fail> {
    let mut rows = [None; 256];
    fill(&mut rows)?;
    let mut out = [b'.'; 196];
    let refused = Err(Refusal::WrongLength.without_text());
    assert_eq!(rt; write(&opening()?, &rows, &mut out), refused);
    assert_eq!(rt; &out[0..5], b".....".as_slice());
    let mut page = [b'.'; 200];
    assert_eq!(rt; write(&opening()?, &rows[0..255], &mut page), refused);
    assert_eq!(rt; &page[0..5], b".....".as_slice());
    Ok(())
}
