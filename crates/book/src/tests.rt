// Examples: each refusal of a draft and of the table, and the price of an hour.
use crate::admit::admit;
use crate::blocks::Blocks;
use crate::drafts::{Draft, Quotes, Terms};
use crate::entering::{change, enter, withdraw};
use crate::hours::price_hour;
use crate::rows::Row;
use curves::quotes::Quote;
use curves::sides::Side;
use faults::fault::{Fault, Refusal};
use std::test::Fail;

fn market(row: usize, member: u32, product: u32) -> Draft {
    Draft {
        row,
        member,
        product,
        side: Side::Buy,
        terms: Terms::Market(10),
    }
}

fn two_pairs(tick: u32, volume: u32) -> Quotes {
    let mut pairs = [Quote {
        tick: 1000,
        volume: 50,
    }; 8];
    pairs[1] = Quote { tick, volume };
    Quotes { pairs, count: 2 }
}

fn step(row: usize, side: Side, tick: u32, volume: u32) -> Draft {
    Draft {
        row,
        member: 7,
        product: 1,
        side,
        terms: Terms::Step(Quotes {
            pairs: [Quote { tick, volume }; 8],
            count: 1,
        }),
    }
}

fn selling(product: u32, terms: Terms) -> Draft {
    Draft {
        row: 0,
        member: 7,
        product,
        side: Side::Sell,
        terms,
    }
}

// The refusal of a draft in a day of one block.
fn refusal(draft: Draft) -> Option<Fault> {
    admit(&draft, 1).err()
}

#[test]
fn drafts_are_refused_in_sequence(rt: HostRuntime) {
    let out = Some(Refusal::OutOfRange(0).without_text());
    assert_eq!(rt; refusal(market(256, 7, 1)), out);
    assert_eq!(rt; refusal(market(0, 1000, 1)), out);
    assert_eq!(rt; refusal(market(0, 7, 39)), out);
    assert_eq!(rt; refusal(selling(26, Terms::Market(0))), out);
    let steep = Terms::Step(two_pairs(1000, 40));
    assert_eq!(rt;
        refusal(selling(26, steep)),
        Some(Refusal::TickNotAbove(2).without_text())
    );
    let falling = Terms::Linear(two_pairs(2000, 40));
    assert_eq!(rt;
        refusal(selling(26, falling)),
        Some(Refusal::VolumeTurned(2).without_text())
    );
    let rising = Terms::Step(two_pairs(2000, 60));
    assert_eq!(rt;
        refusal(selling(26, rising)),
        Some(Refusal::NoSuchBlock.without_text())
    );
    assert_eq!(rt;
        refusal(selling(25, rising)),
        Some(Refusal::BlockForm.without_text())
    );
    assert_eq!(rt; refusal(selling(24, rising)), None);
    assert_eq!(rt; refusal(market(255, 999, 25)), None);
}

#[test]
fn rows_are_taken_changed_and_withdrawn(rt: HostRuntime) -> Result<(), Fail> {
    let mut rows = [None; 256];
    let own = admit(&market(5, 7, 1), 0)?;
    let other = admit(&market(5, 8, 1), 0)?;
    assert_eq!(rt;
        change(&mut rows, 0, &own),
        Err(Refusal::RowEmpty(5).without_text())
    );
    assert_eq!(rt; enter(&mut rows, 59_999, &own), Ok(60_000));
    assert_eq!(rt;
        enter(&mut rows, 3, &own),
        Err(Refusal::RowTaken(5).without_text())
    );
    assert_eq!(rt;
        change(&mut rows, 3, &other),
        Err(Refusal::OtherMember(5).without_text())
    );
    assert_eq!(rt;
        change(&mut rows, 60_000, &own),
        Err(Refusal::StampsSpent.without_text())
    );
    assert_eq!(rt; change(&mut rows, 3, &own), Ok(4));
    assert_eq!(rt;
        withdraw(&mut rows, 5, 8),
        Err(Refusal::OtherMember(5).without_text())
    );
    assert_eq!(rt;
        withdraw(&mut rows, 256, 7),
        Err(Refusal::OutOfRange(0).without_text())
    );
    assert_eq!(rt; withdraw(&mut rows, 5, 7), Ok(()));
    assert_eq!(rt;
        withdraw(&mut rows, 5, 7),
        Err(Refusal::RowEmpty(5).without_text())
    );
    let mut short = [None; 8];
    assert_eq!(rt;
        enter(&mut short, 0, &own),
        Err(Refusal::WrongLength.without_text())
    );
    Ok(())
}

// Enters blocks of one member into the first 32 rows.
fn fill_with_blocks(rows: &mut [Row]) -> Result<(), Fault> {
    for row in 0..32 {
        let ticket = admit(&market(row, 7, 25), 1)?;
        enter(rows, row as u32, &ticket)?;
    }
    Ok(())
}

#[test]
fn blocks_are_full_at_32_other_rows(rt: HostRuntime) -> Result<(), Fail> {
    let mut rows = [None; 256];
    fill_with_blocks(&mut rows)?;
    let block = admit(&market(40, 7, 25), 1)?;
    assert_eq!(rt;
        enter(&mut rows, 32, &block),
        Err(Refusal::BlocksFull(40).without_text())
    );
    assert_eq!(rt;
        change(&mut rows, 32, &admit(&market(31, 7, 25), 1)?),
        Ok(33)
    );
    assert_eq!(rt;
        enter(&mut rows, 33, &admit(&market(40, 7, 24), 1)?),
        Ok(34)
    );
    assert_eq!(rt;
        change(&mut rows, 34, &block),
        Err(Refusal::BlocksFull(40).without_text())
    );
    assert_eq!(rt; withdraw(&mut rows, 0, 7), Ok(()));
    assert_eq!(rt; change(&mut rows, 34, &block), Ok(35));
    Ok(())
}

#[test]
fn an_hour_is_priced_from_its_own_orders(rt: HostRuntime) -> Result<(), Fail> {
    let mut rows = [None; 256];
    enter(&mut rows, 0, &admit(&step(0, Side::Buy, 6000, 100), 0)?)?;
    enter(&mut rows, 1, &admit(&step(1, Side::Sell, 4000, 60), 0)?)?;
    enter(&mut rows, 2, &admit(&market(2, 7, 2), 0)?)?;
    assert_eq!(rt; price_hour(&rows, 1, 0, 0, 5000), Ok((6000, 60, 40)));
    assert_eq!(rt; price_hour(&rows, 1, 0, 40, 5000), Ok((5000, 100, 0)));
    assert_eq!(rt; price_hour(&rows, 2, 0, 0, 5000), Ok((300_000, 0, 10)));
    assert_eq!(rt;
        price_hour(&rows, 25, 0, 0, 5000),
        Err(Refusal::OutOfRange(0).without_text())
    );
    Ok(())
}

#[test]
fn a_day_has_14_blocks_at_most(rt: HostRuntime) -> Result<(), Fail> {
    let mut blocks = Blocks::none();
    assert_eq!(rt;
        blocks.push(16_777_216),
        Err(Refusal::OutOfRange(0).without_text())
    );
    for hours in 1..15 {
        blocks.push(hours)?;
    }
    assert_eq!(rt; blocks.push(1), Err(Refusal::OutOfRange(0).without_text()));
    assert_eq!(rt; blocks.len(), 14);
    assert_eq!(rt; blocks.get(13), Some(14));
    assert_eq!(rt; blocks.get(14), None);
    Ok(())
}
