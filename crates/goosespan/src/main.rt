// Reads a day file from the standard input, clears the day, and prints its hours, blocks and shares, or why it is refused.
#![tactic(auto)]

use book::blanks::Blank;
use book::blocks::Blocks;
use book::rows::Row;
use clearing::block_prices::block_price;
use clearing::fixing::fix;
use clearing::marks::Mark;
use clearing::results::HourResult;
use clearing::sharing::hour_shares;
use dayfile::loading::load;
use faults::fault::{Fault, Refusal};
use posting::fills::Fill;
use std::io;
use std::io::Read;
use text::reader::Reader;

// The most bytes that an input may have.
const LIMIT: usize = 65_536;

// What stops the program: a refusal, or an output that fails. Its own beside the report's, which knows no output.
#[derive(Drop)]
enum Stop {
    Refused(Fault),
    Output(io::Error),
}

impl From<Fault> for Stop {
    fn from(fault: Fault) -> Stop {
        Stop::Refused(fault)
    }
}

impl From<io::Error> for Stop {
    fn from(error: io::Error) -> Stop {
        Stop::Output(error)
    }
}

fn print_hours(rt: &impl Print, hours: &[HourResult; 24]) -> io::Result<()> {
    for (hour, result) in (1u8..).zip(hours) {
        let price = result.price;
        let volume = result.executed;
        if volume > 0 {
            println!(rt; "hour {hour} price {price} volume {volume}")?;
        }
    }
    Ok(())
}

fn print_blocks(rt: &impl Print, blocks: &Blocks, hours: &[HourResult; 24]) -> Result<(), Stop> {
    for (block, set) in (1u8..).zip(blocks.listed()) {
        let price = block_price(*set, hours)?;
        println!(rt; "block {block} price {price}")?;
    }
    Ok(())
}

// The shares of every hour, a table of rows to each.
fn shares_of(
    rows: &[Row; 256],
    blocks: &Blocks,
    marks: &[Mark; 256],
    hours: &[HourResult; 24],
) -> Result<[[u64; 256]; 24], Fault> {
    let mut shares = [[0; 256]; 24];
    for ((hour, result), shares) in (1..).zip(hours).zip(shares.iter_mut()) {
        hour_shares(rows, blocks, marks, hour, result, 0, shares)?;
    }
    Ok(shares)
}

fn print_row(rt: &impl Print, row: usize, shares: &[[u64; 256]; 24]) -> io::Result<()> {
    for (hour, shares) in (1u8..).zip(shares) {
        let share = shares.get(row).copied().unwrap_or(0);
        if share > 0 {
            println!(rt; "row {row} hour {hour} share {share}")?;
        }
    }
    Ok(())
}

fn clear_day(rt: &impl Print, input: &[u8]) -> Result<(), Stop> {
    if input.len() > LIMIT {
        return Err(Refusal::WrongLength.without_text().into());
    }
    let mut rows = [None; 256];
    let mut hours = [HourResult::blank(); 24];
    let mut marks = [Mark::Kept; 256];
    // A load empties a post list too, which this program does not use yet.
    let mut posts = [Fill::blank(); 128];
    let mut reader = Reader::new(input);
    let opening = load(&mut reader, &mut rows, &mut hours, &mut marks, &mut posts)?;
    fix(
        &rows,
        &opening.blocks,
        &opening.references,
        &mut hours,
        &mut marks,
    )?;
    print_hours(rt, &hours)?;
    print_blocks(rt, &opening.blocks, &hours)?;
    let shares = shares_of(&rows, &opening.blocks, &marks, &hours)?;
    // By number: the row's number is what is printed.
    for row in 0..256 {
        print_row(rt, row, &shares)?;
    }
    Ok(())
}

fn main(rt: HostRuntime) -> io::Result<()> {
    let mut input = Vec::new(rt.alloc());
    // One byte past the limit is enough to refuse.
    rt.stdin().take(LIMIT as u64 + 1).read_to_end(&mut input)?;
    match clear_day(&rt, &input) {
        Ok(()) => Ok(()),
        Err(Stop::Refused(fault)) => println!(rt; "no {fault}"),
        Err(Stop::Output(error)) => Err(error),
    }
}
