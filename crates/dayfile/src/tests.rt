// Examples: each refusal of a day's text once, and an accepted day.
use crate::loading::load;
use crate::opening::Opening;
use book::rows::Row;
use book::tables::is_taken;
use faults::fault::{Fault, Refusal};
use std::test::Fail;
use text::close::Close;
use text::page::Page;
use text::reader::Reader;

fn open(reader: &mut Reader, rows: &mut [Row]) -> Result<Opening, Fault> {
    let mut hours = [None; 24];
    let mut marks = [None; 256];
    let mut posts = [None; 128];
    load(reader, rows, &mut hours, &mut marks, &mut posts)
}

// The fault of a day that is nothing but `text`.
fn fault_of(text: &[u8]) -> Option<Fault> {
    let mut rows = [None; 256];
    let mut reader = Reader::new(text);
    open(&mut reader, &mut rows).err()
}

// The fault of a day of one block and two orders whose lines, from byte 77 on, are `lines`.
fn fault_in(lines: &[u8]) -> Option<Fault> {
    let mut page: Page<160> = Page::new();
    page.word(
        b"hours 24\n1 1 1 1 1 1 1 1 1 1 1 1 1 1 1 1 1 1 1 1 1 1 1 1\nblocks 1\n3\norders 2\n",
    );
    page.word(lines);
    let mut text = [0; 160];
    text[..page.text().len()].copy_from_slice(page.text());
    fault_of(&text)
}

fn at(refusal: Refusal, line: usize) -> Option<Fault> {
    Some(Fault { refusal, line })
}

#[test]
fn sections_are_refused_item_by_item(rt: HostRuntime) {
    assert_eq!(rt; fault_of(b""), at(Refusal::Misfit(0), 0));
    assert_eq!(rt; fault_of(b"hours 25\n"), at(Refusal::OutOfRange(6), 0));
    assert_eq!(rt; fault_of(b"hours 24\n1 1 "), at(Refusal::Misfit(13), 9));
    assert_eq!(rt;
        fault_of(b"hours 24\n1 300001 "),
        at(Refusal::OutOfRange(11), 9)
    );
}

#[test]
fn order_lines_are_refused_in_sequence(rt: HostRuntime) {
    assert_eq!(rt;
        fault_in(b"00 7 1 buy market 10\n"),
        at(Refusal::Misfit(77), 77)
    );
    assert_eq!(rt;
        fault_in(b"0 7 1 bid market 10\n"),
        at(Refusal::Misfit(83), 77)
    );
    assert_eq!(rt;
        fault_in(b"0 7 39 buy market 10\n"),
        at(Refusal::OutOfRange(81), 77)
    );
    assert_eq!(rt;
        fault_in(b"0 7 26 sell step 2 5 1 5 2\n"),
        at(Refusal::TickNotAbove(2), 77)
    );
    assert_eq!(rt;
        fault_in(b"0 7 26 buy step 2 5 1 6 2\n"),
        at(Refusal::VolumeTurned(2), 77)
    );
    assert_eq!(rt;
        fault_in(b"0 7 26 buy linear 1 5 1\n"),
        at(Refusal::NoSuchBlock, 77)
    );
    assert_eq!(rt;
        fault_in(b"0 7 25 buy linear 1 5 1\n"),
        at(Refusal::BlockForm, 77)
    );
    assert_eq!(rt;
        fault_in(b"0 7 1 buy market 10\n0 8 2 sell market 10\n"),
        at(Refusal::RowTaken(0), 97)
    );
}

#[test]
fn an_accepted_day_stands_in_its_tables(rt: HostRuntime) -> Result<(), Fail> {
    let mut rows = [None; 256];
    let mut reader = Reader::new(
        b"hours 24\n1 1 1 1 1 1 1 1 1 1 1 1 1 1 1 1 1 1 1 1 1 1 1 9\nblocks 1\n3\norders 1\n5 7 25 buy market 10\ncalls 0\n",
    );
    let opening = open(&mut reader, &mut rows)?;
    assert_eq!(rt; opening.references[23].get(), 9);
    assert_eq!(rt; opening.blocks.get(0), Some(3));
    assert_eq!(rt; opening.given, 1);
    assert!(rt; is_taken(&rows, 5));
    assert_eq!(rt; reader.at, 98);
    let mut short = [None; 255];
    assert_eq!(rt;
        open(&mut reader, &mut short).err(),
        Some(Refusal::WrongLength.without_text())
    );
    Ok(())
}

// Order lines for the rows from 0 to `n`, all for one product.
fn put_lines(page: &mut Page<8192>, n: u64, product: u64) {
    for row in 0..n {
        page.number_item(row, Close::Space);
        page.word(b"7 ");
        page.number_item(product, Close::Space);
        page.word(b"buy market 10\n");
    }
}

// The fault of a day of one block with such orders.
fn fault_of_many(n: u64, product: u64) -> Option<Fault> {
    let mut page: Page<8192> = Page::new();
    page.word(b"hours 24\n1 1 1 1 1 1 1 1 1 1 1 1 1 1 1 1 1 1 1 1 1 1 1 1\nblocks 1\n3\norders ");
    page.number_item(n, Close::Line);
    put_lines(&mut page, n, product);
    let mut text = [0; 8192];
    text[..page.text().len()].copy_from_slice(page.text());
    fault_of(&text)
}

#[test]
fn a_full_table_and_a_block_too_many(rt: HostRuntime) {
    assert_eq!(rt; fault_of_many(256, 1), None);
    assert_eq!(rt; fault_of_many(257, 1), at(Refusal::OutOfRange(75), 68));
    assert_eq!(rt; fault_of_many(32, 25), None);
    assert_eq!(rt; fault_of_many(33, 25), at(Refusal::BlocksFull(32), 772));
}
