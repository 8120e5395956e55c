// Areas against sums taken tick by tick.
use crate::areas::Area;
use curves::lines::Linear;
use curves::markets::Market;
use curves::orders::Order;
use curves::quotes::Quote;
use curves::sides::Side;
use curves::steps::Step;
use curves::ticks::Tick;
use std::test::Fail;

fn q(tick: u32, volume: u32) -> Quote {
    Quote { tick, volume }
}

#[test]
fn a_market_order_counts_the_ticks_beyond_the_price(rt: HostRuntime) -> Result<(), Fail> {
    let buy = Market::new(Side::Buy, 70)?;
    assert_eq!(rt; buy.area(Tick::new(299_990)?), 700);
    let sell = Order::Market(Market::new(Side::Sell, 70)?);
    assert_eq!(rt; sell.area(Tick::new(11)?), 700);
    assert_eq!(rt; sell.area(Tick::new(1)?), 0);
    Ok(())
}

#[test]
fn a_step_order_counts_level_pieces(rt: HostRuntime) -> Result<(), Fail> {
    let buy = Step::new(Side::Buy, &[q(2_000, 150), q(2_500, 100)])?;
    assert_eq!(rt; buy.area(Tick::new(2_200)?), 30_000);
    assert_eq!(rt; buy.area(Tick::new(1_500)?), 125_000);
    let sell = Step::new(Side::Sell, &[q(2_000, 100), q(2_500, 150)])?;
    assert_eq!(rt; sell.area(Tick::new(2_501)?), 50_150);
    assert_eq!(rt; sell.area(Tick::new(1_500)?), 0);
    Ok(())
}

#[test]
fn a_linear_order_counts_straight_pieces(rt: HostRuntime) -> Result<(), Fail> {
    let sell = Linear::new(Side::Sell, &[q(2_000, 100), q(2_500, 150)])?;
    assert_eq!(rt; sell.area(Tick::new(2_400)?), 47_800);
    assert_eq!(rt; sell.area(Tick::new(2_600)?), 77_250);
    let buy = Linear::new(Side::Buy, &[q(2_000, 150), q(2_500, 100)])?;
    assert_eq!(rt; buy.area(Tick::new(2_100)?), 47_800);
    assert_eq!(rt; buy.area(Tick::new(2_500)?), 0);
    Ok(())
}

#[test]
fn eight_pairs_count_piece_by_piece(rt: HostRuntime) -> Result<(), Fail> {
    let pairs = [
        q(1_000, 3),
        q(1_007, 10),
        q(1_100, 10),
        q(1_500, 17),
        q(2_000, 400),
        q(2_003, 401),
        q(2_999, 777),
        q(299_999, 100_000),
    ];
    let step = Order::Step(Step::new(Side::Sell, &pairs)?);
    assert_eq!(rt; step.area(Tick::new(250_000)?), 192_333_824);
    let line = Order::Linear(Linear::new(Side::Sell, &pairs)?);
    assert_eq!(rt; line.area(Tick::new(250_000)?), 10_383_605_410);
    Ok(())
}
