// Examples of the share rule at each kind of claim.
use crate::block::BlockClaim;
use crate::kinds::share_kinds;
use crate::limit::LimitClaim;
use crate::market::MarketClaim;
use crate::shares::share_out;
use faults::fault::Refusal;
use std::test::Fail;

fn market(volume: u64, stamp: u32) -> MarketClaim {
    MarketClaim { volume, stamp }
}

fn limit(area: u64, volume: u64, stamp: u32) -> LimitClaim {
    LimitClaim {
        area,
        volume,
        stamp,
    }
}

fn block(hours: u32, volume: u64, stamp: u32) -> Option<BlockClaim> {
    Some(BlockClaim {
        hours,
        volume,
        stamp,
    })
}

#[test]
fn markets_by_volume_then_stamp(rt: HostRuntime) -> Result<(), Fail> {
    let claims = [market(30, 2), market(50, 3), market(30, 1)];
    let mut shares = [0; 3];
    share_out(95, &claims, &mut shares)?;
    assert_eq!(rt; shares, [15, 50, 30]);
    share_out(0, &claims, &mut shares)?;
    assert_eq!(rt; shares, [0, 0, 0]);
    share_out(111, &claims, &mut shares)?;
    assert_eq!(rt; shares, [30, 50, 30]);
    Ok(())
}

#[test]
fn limits_by_area_then_volume_then_stamp(rt: HostRuntime) -> Result<(), Fail> {
    let claims = [
        limit(7, 20, 4),
        limit(7, 20, 3),
        limit(7, 25, 2),
        limit(9, 10, 1),
    ];
    let mut shares = [0; 4];
    share_out(56, &claims, &mut shares)?;
    assert_eq!(rt; shares, [1, 20, 25, 10]);
    Ok(())
}

#[test]
fn blocks_by_hours_then_volume_then_stamp(rt: HostRuntime) -> Result<(), Fail> {
    let claims = [
        block(4, 20, 4),
        None,
        block(4, 20, 3),
        block(4, 25, 2),
        block(24, 10, 1),
    ];
    let mut shares = [9; 5];
    share_out(56, &claims, &mut shares)?;
    assert_eq!(rt; shares, [1, 0, 20, 25, 10]);
    Ok(())
}

// Gives each claim a lower stamp than the one before it.
fn stamp_downward(claims: &mut [MarketClaim]) {
    let mut stamp = 256u32;
    for claim in claims.iter_mut() {
        claim.stamp = stamp;
        stamp = stamp.saturating_sub(1);
    }
}

#[test]
fn a_full_table(rt: HostRuntime) -> Result<(), Fail> {
    let mut claims = [market(10, 0); 256];
    stamp_downward(&mut claims);
    let mut shares = [0; 256];
    share_out(2551, &claims, &mut shares)?;
    assert_eq!(rt; shares[0], 1);
    assert_eq!(rt; shares[1], 10);
    assert_eq!(rt; shares[255], 10);
    Ok(())
}

#[test]
fn a_wrong_length_is_refused(rt: HostRuntime) {
    let claims = [market(30, 2)];
    let mut shares = [5, 6];
    assert_eq!(rt;
        share_out(30, &claims, &mut shares),
        Err(Refusal::WrongLength.without_text())
    );
    assert_eq!(rt; shares, [5, 6]);
}

#[test]
fn kinds_one_after_another(rt: HostRuntime) -> Result<(), Fail> {
    let blocks = [block(4, 20, 1), None];
    let markets = [market(30, 2), market(50, 3)];
    let limits = [limit(7, 20, 4)];
    let mut to_blocks = [0; 2];
    let mut to_markets = [0; 2];
    let mut to_limits = [9; 1];
    share_kinds(
        95,
        &blocks,
        &markets,
        &limits,
        &mut to_blocks,
        &mut to_markets,
        &mut to_limits,
    )?;
    assert_eq!(rt; to_blocks, [20, 0]);
    assert_eq!(rt; to_markets, [25, 50]);
    assert_eq!(rt; to_limits, [0]);
    let refused = share_kinds(
        95,
        &blocks,
        &markets,
        &limits,
        &mut to_limits,
        &mut to_markets,
        &mut to_blocks,
    );
    assert_eq!(rt; refused, Err(Refusal::WrongLength.without_text()));
    assert_eq!(rt; to_markets, [25, 50]);
    Ok(())
}
