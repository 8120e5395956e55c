use crate::curves::Curve;
use crate::lines::Linear;
use crate::loads::Load;
use crate::markets::Market;
use crate::offers::price_of_two;
use crate::orders::Order;
use crate::prices::price;
use crate::quotes::Quote;
use crate::sides::Side;
use crate::steps::Step;
use crate::ticks::Tick;
use faults::fault::{Fault, Refusal};
use std::test::Fail;

fn q(tick: u32, volume: u32) -> Quote {
    Quote { tick, volume }
}

// The refusal of a step sell of these pairs.
fn refused(pairs: &[Quote]) -> Option<Fault> {
    Step::new(Side::Sell, pairs).err()
}

#[test]
fn pairs_are_refused_in_sequence(rt: HostRuntime) {
    let range = Some(Refusal::OutOfRange(0).without_text());
    assert_eq!(rt; refused(&[]), range);
    assert_eq!(rt; refused(&[q(1, 1); 9]), range);
    assert_eq!(rt; refused(&[q(5, 1), q(5, 100_001)]), range);
    assert_eq!(rt; refused(&[q(300_001, 1)]), range);
    assert_eq!(rt;
        refused(&[q(5, 2), q(5, 1)]),
        Some(Refusal::TickNotAbove(2).without_text())
    );
    assert_eq!(rt;
        refused(&[q(5, 2), q(6, 2), q(7, 1), q(7, 1)]),
        Some(Refusal::VolumeTurned(3).without_text())
    );
    assert_eq!(rt; refused(&[q(1, 1), q(300_000, 100_000)]), None);
}

#[test]
fn orders_show_the_worked_volumes(rt: HostRuntime) -> Result<(), Fail> {
    let rising = [q(2_000, 100), q(2_500, 150)];
    let step = Step::new(Side::Sell, &rising)?;
    assert_eq!(rt; step.volume_at(Tick::new(2_499)?), 100);
    assert_eq!(rt; step.greatest(), 150);
    let line = Linear::new(Side::Sell, &rising)?;
    assert_eq!(rt; line.volume_at(Tick::new(2_250)?), 125);
    assert_eq!(rt; line.volume_at(Tick::new(1_999)?), 0);
    Ok(())
}

#[test]
fn a_price_is_refused_off_the_ladder_and_on_the_wrong_side(rt: HostRuntime) -> Result<(), Fail> {
    let buy = Order::Step(Step::new(Side::Buy, &[q(6_000, 100)])?);
    let sell = Order::Step(Step::new(Side::Sell, &[q(4_000, 60)])?);
    let range = Err(Refusal::OutOfRange(0).without_text());
    assert_eq!(rt; price_of_two(&buy, &sell, 5_000), Ok((6_000, 60, 40)));
    assert_eq!(rt; price_of_two(&buy, &sell, 300_001), range);
    assert_eq!(rt; price_of_two(&sell, &buy, 5_000), range);
    Ok(())
}

#[test]
fn a_load_is_refused_past_the_greatest_volume(rt: HostRuntime) -> Result<(), Fail> {
    let order = Market::new(Side::Buy, 100_000)?;
    assert!(rt; Load::new(order, 99_900_000).is_ok());
    assert!(rt; Load::new(order, 99_900_001).is_err());
    Ok(())
}
